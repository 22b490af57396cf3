// Numbers with marks in the words of the frames. The pass over the frames takes words as they stand, and counts such a number among those that aren't below N.
ghost use Rattle.std.specs.Prelude.{◌≡◌, false, ◌+◌, ◌*◌, ◌<◌, ◌≤◌, length, is_some};
ghost use Rattle.std.specs.Option.{unwrap_or};
ghost use Rattle.page.specs.Figures.{page_size, slot_count, most_frames, most_pages, most_stores};
ghost use Rattle.page.specs.Page.{slot};
ghost use Rattle.residents.specs.Residents.{store_by};
ghost use Rattle.agreement.specs.Sizes.{Sizes};
ghost use Rattle.agreement.specs.Fit.{marks_from, marked_from, NoMark, MarksNoted, FrameMarks, StoresFew, AllMarks};

use crate::words::Words;
use machine::Pool;
use page::{FrameIndex, PageNumber, StoreNumber, word};
use residents::Residents;
use seen::Seen;

impl Words<'_> {
    // Has one of the words a mark, and names no frame. No word is branched on, so that the compiler takes them side by side.
    fn has_marked(&self) -> bool
        ensures { result ≡ false → NoMark (slot self.now.frames.now self.now.frame.0) }
    {
        let mut hit = false;
        for k in 0..PageNumber::SLOTS {
            if word::is_marked_number(self.at(k)) {
                hit = true;
            }
        }
        hit
    }

    // Notes the numbers with marks among the words: how many there are, or nothing where one was noted before.
    fn note_marked(&self, seen: &mut Seen) -> Option<u32>
        ensures { MarksNoted (marks_from (slot self.now.frames.now self.now.frame.0) self.now.pages) (marked_from (slot self.now.frames.now self.now.frame.0) self.now.pages self.now.of_store.0) slot_count seen.old seen.new (unwrap_or result 0) (is_some result) }
    {
        let mut count = 0;
        for k in 0..PageNumber::SLOTS {
            let w = self.at(k);
            if word::is_marked_number(w) {
                let x = word::name_of(w);
                if x < self.pages {
                    if !seen.note(self.of_store, x as usize) {
                        return None;
                    }
                    count += 1;
                }
            }
        }
        Some(count)
    }
}

// The store of the page in a frame.
fn store_in(residents: &Residents, frame: FrameIndex) -> StoreNumber
    requires { (frame.0 < most_frames) × (store_by residents.now frame.0 < most_stores) }
    ensures { result.0 ≡ store_by residents.now frame.0 }
{
    let f = usize::from(frame);
    StoreNumber((usize::from(residents[f]) / PageNumber::MOST) as u8)
}

// Notes those in a frame, where it holds a page.
fn note_frame(
    frames: &[u8],
    residents: &Residents,
    frame: FrameIndex,
    pages: u32,
    seen: &mut Seen,
) -> Option<u32>
    requires { (1 ≤ pages) × (pages ≤ most_pages) × (frame.0 < most_frames) × (store_by residents.now frame.0 < most_stores) × (page_size * frame.0 + page_size ≤ length frames.now) }
    ensures { FrameMarks residents.now frames.now pages frame.0 seen.old seen.new (unwrap_or result 0) (is_some result) }
{
    if residents::holds_page(residents, frame) {
        let words = Words {
            frames,
            frame,
            of_store: store_in(residents, frame),
            pages,
        };
        if words.has_marked() {
            return words.note_marked(seen);
        }
    }
    Some(0)
}

// Notes those in all frames: how many there are, or nothing where one was noted before. Where the words that aren't below N are `even` with the frames that they are to name, there are none, and they aren't looked for.
pub fn note(
    pool: &Pool,
    frames: &[u8],
    residents: &Residents,
    even: bool,
    seen: &mut Seen,
) -> Option<u32>
    requires { Sizes pool.now.count pool.now.pages pool.now.stores frames.now × StoresFew residents.now pool.now.count }
    ensures { AllMarks residents.now frames.now pool.now.count pool.now.pages even seen.old seen.new (unwrap_or result 0) (is_some result) }
{
    if even {
        return Some(0);
    }
    let pages = u32::from(pool.pages);
    let mut marked = 0;
    for f in 0..pool.count {
        let found = note_frame(frames, residents, FrameIndex(f as u8), pages, seen)?;
        marked += found;
    }
    Some(marked)
}
