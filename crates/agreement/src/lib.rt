// Rule 2: do records and frames agree. One pass over the frames tests each record, the word that names the frame, and the numbers in it; then numbers with marks are looked for, where there may be some, the stores' pages are counted against their ceilings, and parents are followed, where one doesn't lie before its frame.
#![tactic(auto)]

mod ceilings;
mod frame;
mod marks;
mod record;
mod steps;
mod words;

ghost use Rattle.std.specs.Prelude.{◌≡◌, true};
ghost use Rattle.machine.specs.Agreement.{agree};
ghost use Rattle.residents.specs.Handed.{Clear, Handed};
ghost use Rattle.agreement.specs.Sizes.{Sizes};

use machine::Pool;
use page::FrameIndex;
use residents::Residents;
use seen::Seen;

// Do records and frames agree, once their sizes were found right. Where they do, the tables tell the page in each frame, and which pages resident pages name.
pub fn agrees(pool: &Pool, frames: &[u8], residents: &mut Residents, seen: &mut Seen) -> bool
    requires { Sizes pool.now.count pool.now.pages pool.now.stores frames.now × Clear residents.old seen.old }
    ensures { (result ≡ agree pool.now frames.now) × (result ≡ true → Handed pool.now frames.now residents.new seen.new) }
{
    let count = usize::from(pool.count);
    if count <= usize::from(pool.hand) {
        return false;
    }
    let mut parents = [0u8; FrameIndex::MOST];
    let mut occupied: u32 = 0;
    // Words that aren't below N as they stand. Each occupied frame but the roots' has one of its own; where there are no more of them, each is swizzled to a frame that points back to it, with a mark or without. Others can only be numbers with marks.
    let mut over: u32 = 0;
    for f in 0..count {
        let frame = FrameIndex(f as u8);
        let rec = &pool.records[f];
        if !frame::is_fitting(pool, frames, frame, rec) {
            return false;
        }
        parents[f] = rec.parent.0;
        let key = residents::key(rec.store, rec.page);
        residents[f] = key;
        let Some(words) = frame::note(pool, frames, frame, rec, seen) else {
            return false;
        };
        over += words;
        occupied += u32::from(rec.used);
    }
    // The fields of the records from F on, or-ed together.
    let mut rest: u32 = 0;
    for f in count..FrameIndex::MOST {
        rest |= record::fields(&pool.records[f]);
    }
    if rest != 0 {
        return false;
    }
    // With the roots', which no word names.
    let frames_named = over + u32::from(pool.stores);
    let even = frames_named == occupied;
    let Some(marked) = marks::note(pool, frames, residents, even, seen) else {
        return false;
    };
    if frames_named != occupied + marked {
        return false;
    }
    if !ceilings::hold(pool, residents, occupied) {
        return false;
    }
    steps::lead_to_root(parents, count)
}
