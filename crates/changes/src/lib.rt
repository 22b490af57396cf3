// The calls that change the contents of a handle's page: write, link and unlink.
#![tactic(auto)]

mod refusals;

ghost use Rattle.std.specs.Prelude.{◌≡◌, ◌<◌};
ghost use Rattle.page.specs.Figures.{most_frames};
ghost use Rattle.machine.specs.Machine.{state};
ghost use Rattle.machine.specs.Answers.{out, done_answer};
ghost use Rattle.machine.specs.Calls.{write_call, link_call, unlink_call};
ghost use Rattle.changes.specs.Changed.{made_dirty};

use machine::{Buffers, Handle, Pool, Refusal};
use page::{FrameIndex, PageNumber};

// The page in a frame has changed since it was loaded or settled.
fn mark_dirty(pool: &mut Pool, frame: FrameIndex)
    requires { frame.0 < most_frames }
    ensures { pool.new ≡ made_dirty pool.old frame.0 }
{
    let at = usize::from(frame);
    pool.records[at] = records::dirtied(pool.records[at]);
}

// Puts bytes at a payload offset of the handle's page.
pub fn write(
    pool: &mut Pool,
    frames: &mut [u8],
    store: &[u8],
    directory: &[u8],
    handle: Handle,
    offset: usize,
    bytes: &[u8],
) -> Result<(), Refusal>
    ensures { out (done_answer result) (state pool.new frames.new store.now directory.now) ≡ write_call (state pool.old frames.old store.now directory.now) handle offset bytes.now }
{
    let n = bytes.len();
    let buffers = Buffers {
        frames,
        store,
        directory,
    };
    refusals::write_rules(pool, buffers, handle, offset, n)?;
    if n == 0 {
        return Ok(());
    }
    let start = handle.frame.start() + PageNumber::PAYLOAD_START + offset;
    page::copy::copy_into(&mut frames[start..start + n], bytes);
    mark_dirty(pool, handle.frame);
    Ok(())
}

// Stores a page number, unswizzled, in an empty slot of the handle's page, with the mark if that page is to be locked.
pub fn link(
    pool: &mut Pool,
    frames: &mut [u8],
    store: &[u8],
    directory: &[u8],
    handle: Handle,
    slot: usize,
    page: PageNumber,
    locked: bool,
) -> Result<(), Refusal>
    ensures { out (done_answer result) (state pool.new frames.new store.now directory.now) ≡ link_call (state pool.old frames.old store.now directory.now) handle slot page locked }
{
    let buffers = Buffers {
        frames,
        store,
        directory,
    };
    refusals::link_rules(pool, buffers, handle, slot, page)?;
    let word = page::word::marked(locked, page.word());
    page::slot::put_in_slot(frames, handle.frame, slot, word);
    mark_dirty(pool, handle.frame);
    Ok(())
}

// Clears a slot of the handle's page.
pub fn unlink(
    pool: &mut Pool,
    frames: &mut [u8],
    store: &[u8],
    directory: &[u8],
    handle: Handle,
    slot: usize,
) -> Result<(), Refusal>
    ensures { out (done_answer result) (state pool.new frames.new store.now directory.now) ≡ unlink_call (state pool.old frames.old store.now directory.now) handle slot }
{
    let buffers = Buffers {
        frames,
        store,
        directory,
    };
    refusals::unlink_rules(pool, buffers, handle, slot)?;
    page::slot::put_in_slot(frames, handle.frame, slot, page::word::NOTHING);
    mark_dirty(pool, handle.frame);
    Ok(())
}
