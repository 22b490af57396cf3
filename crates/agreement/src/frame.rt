// A frame: its record, the word that names it, and the numbers in it.
ghost use Rattle.std.specs.Prelude.{◌≡◌, ◌<◌, is_some};
ghost use Rattle.std.specs.Option.{unwrap_or};
ghost use Rattle.seen.specs.Seen.{OneStore};
ghost use Rattle.agreement.specs.Sizes.{Sizes};
ghost use Rattle.rules.specs.Deciding.{Decides};
ghost use Rattle.agreement.specs.Fit.{above_of, ResidentFits, Linked, FrameFits, FrameNoted};

use crate::record;
use crate::words::Words;
use machine::{FrameRecord, Pool};
use page::FrameIndex;
use seen::Seen;

// Is the parent of a frame, whose record is in range, occupied by a page of its store, and its word swizzled to the frame, with a mark or, as most, without.
fn is_linked(pool: &Pool, frames: &[u8], frame: FrameIndex, rec: &FrameRecord) -> bool
    requires { Sizes pool.now.count pool.now.pages pool.now.stores frames.now × (frame.0 < pool.now.count) × ResidentFits pool.now.count pool.now.pages pool.now.stores rec.now }
    ensures { Decides result (Linked frames.now frame.0 rec.now (above_of pool.now.records rec.now)) }
{
    let above = &pool.records[usize::from(rec.parent)];
    if above.used != 1 {
        return false;
    }
    if above.store.0 != rec.store.0 {
        return false;
    }
    let w = page::slot::slot_word(frames, rec.parent, usize::from(rec.slot));
    let name = frame.word();
    w == name || w == page::word::marked(true, name)
}

// Does the frame's record fit, and the word that names it.
pub fn is_fitting(pool: &Pool, frames: &[u8], frame: FrameIndex, rec: &FrameRecord) -> bool
    requires { Sizes pool.now.count pool.now.pages pool.now.stores frames.now × (frame.0 < pool.now.count) }
    ensures { Decides result (FrameFits pool.now frames.now frame.0 rec.now) }
{
    if frame.0 < pool.stores {
        return record::root_fits(rec, frame);
    }
    if rec.used == 1 {
        if !record::resident_fits(pool, rec) {
            return false;
        }
        return is_linked(pool, frames, frame, rec);
    }
    record::is_blank(rec)
}

// Notes the numbers in a frame that fits, where it is occupied: how many of its words are not below N, or nothing where a number was noted before.
pub fn note(
    pool: &Pool,
    frames: &[u8],
    frame: FrameIndex,
    rec: &FrameRecord,
    seen: &mut Seen,
) -> Option<u32>
    requires { Sizes pool.now.count pool.now.pages pool.now.stores frames.now × (frame.0 < pool.now.count) × FrameFits pool.now frames.now frame.0 rec.now × (pool.now.stores ≡ 1 → OneStore seen.old) }
    ensures { FrameNoted frames.now pool.now.pages frame.0 rec.now seen.old seen.new (unwrap_or result 0) (is_some result) }
{
    if rec.used == 1 {
        let words = Words {
            frames,
            frame,
            of_store: rec.store,
            pages: u32::from(pool.pages),
        };
        words.note(rec.page, pool.stores == 1, seen)
    } else {
        Some(0)
    }
}
