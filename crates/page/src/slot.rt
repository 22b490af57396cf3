// The slots of a frame, in the buffer of the frames.
ghost use Rattle.std.specs.Prelude.{◌≡◌, ◌+◌, ◌*◌, ◌≤◌, ◌<◌, length};
ghost use Rattle.page.specs.Figures.{page_size, slot_count, word_size};
ghost use Rattle.page.specs.Page.{slot as slot_word, name as slot_name, put_slot};

use crate::{FrameIndex, word};

// Where a slot of a frame starts.
pub fn slot_start(frame: FrameIndex, slot: usize) -> usize
    requires { slot < slot_count }
    ensures { result ≡ page_size * frame.0 + word_size * slot }
{
    frame.start() + word::SIZE * slot
}

// The word in a slot.
#[tactic(auto, unfolding(crate::specs::Page::slot))]
pub fn slot_word(frames: &[u8], frame: FrameIndex, slot: usize) -> u32
    requires { (page_size * frame.0 + page_size ≤ length frames.now) × (slot < slot_count) }
    ensures { result ≡ slot_word frames.now frame.0 slot }
{
    word::word_at(frames, slot_start(frame, slot))
}

// What it names.
pub fn slot_name(frames: &[u8], frame: FrameIndex, slot: usize) -> u32
    requires { (page_size * frame.0 + page_size ≤ length frames.now) × (slot < slot_count) }
    ensures { result ≡ slot_name frames.now frame.0 slot }
{
    word::name_of(slot_word(frames, frame, slot))
}

// Puts a word into a slot.
#[tactic(auto, unfolding(crate::specs::Page::put_slot))]
pub fn put_in_slot(frames: &mut [u8], frame: FrameIndex, slot: usize, w: u32)
    requires { (page_size * frame.0 + page_size ≤ length frames.old) × (slot < slot_count) }
    ensures { frames.new ≡ put_slot frames.old frame.0 slot w }
{
    word::put_word(frames, slot_start(frame, slot), w);
}
