// What is asked of the table of the page in each frame, which rule 2's pass hands on: loops and later rules go by it in place of the records.
#![tactic(auto)]

ghost use Rattle.std.specs.Prelude.{◌≡◌, ◌%◌, ◌<◌, ◌≤◌};
ghost use Rattle.page.specs.Figures.{most_frames, most_pages, most_stores};
ghost use Rattle.residents.specs.Handed.{Clear};
ghost use Rattle.residents.specs.Residents.{key_of, page_by, in_table, holds_page, held_by};

use page::{FrameIndex, PageNumber, StoreNumber};
use seen::{Seen, flags};

// The key of the page in each frame. 0, the key of store 0's root, which is in frame 0, stands for an empty one: 16 bits a frame are compared side by side, which an Option is not. No struct with methods: `scan` and `directory` go through the entries themselves.
pub type Residents = [u16; FrameIndex::MOST];

// No frame holds a page.
pub const NONE: Residents = [0; FrameIndex::MOST];

// The tables that rule 2 hands on: the page in each frame, and the numbers that resident pages name.
#[derive(Drop)]
pub struct Tables {
    pub residents: Residents,
    pub seen: Seen,
}

impl Tables {
    // As rule 2 takes them.
    pub fn cleared() -> Tables
        ensures { Clear result.residents result.seen }
    {
        Tables {
            residents: NONE,
            seen: Seen::new(),
        }
    }
}

// How far the keys of a store's pages are from those of the next store's.
const STEP: u16 = 4096;

// The key of a page: its store and its number in one, so that pages are compared within their store at once.
pub fn key(of_store: StoreNumber, page: PageNumber) -> u16
    requires { (of_store.0 < most_stores) × (page.0 < most_pages) }
    ensures { result ≡ key_of of_store.0 page.0 }
{
    STEP * u16::from(of_store.0) + page.0
}

// The number in a key.
pub fn page_of(key: u16) -> PageNumber
    ensures { result.0 ≡ key % most_pages }
{
    PageNumber(key % STEP)
}

// The number of the page in a frame, in its store.
pub fn page_in(residents: &Residents, frame: FrameIndex) -> PageNumber
    requires { frame.0 < most_frames }
    ensures { result.0 ≡ page_by residents.now frame.0 }
{
    page_of(residents[usize::from(frame)])
}

// Is the page in a frame. All entries are looked at, so that they are compared side by side.
pub fn is_resident(residents: &Residents, of_store: StoreNumber, page: PageNumber) -> bool
    requires { (of_store.0 < most_stores) × (page.0 < most_pages) }
    ensures { result ≡ in_table residents.now of_store.0 page.0 }
{
    let sought = key(of_store, page);
    flags::any_below(FrameIndex::MOST, |g| residents[g] == sought)
}

// Does the frame hold a page.
pub fn holds_page(residents: &Residents, frame: FrameIndex) -> bool
    requires { frame.0 < most_frames }
    ensures { result ≡ holds_page residents.now frame.0 }
{
    let f = usize::from(frame);
    if f == 0 {
        return true;
    }
    residents[f] != 0
}

// How many of the first frames hold a page of the store. No frame is branched on, so that the compiler takes them side by side; frame 0 holds its page whatever the key.
pub fn held(residents: &Residents, count: usize, of_store: StoreNumber) -> u16
    requires { (0 < count) × (count ≤ most_frames) }
    ensures { result ≡ held_by residents.now count of_store.0 }
{
    let store = u16::from(of_store.0);
    let mut n = (residents[0] / STEP == store) as u16;
    for f in 1..count {
        let entry = residents[f];
        if (entry != 0) & (entry / STEP == store) {
            n += 1;
        }
    }
    n
}
