// How many frames to buy: the tally of recorded fixes. What its calls mean stands in specs/: depths, the cache of any size, and what the
// one tells of the other.
#![tactic(auto)]

// The head of a tally: the recordings that were added, and all their references. The counters, one for each depth from 1 on, are
// lent.
#[repr(C)]
#[derive(Clone, Copy)]
pub struct Tally {
    pub recordings: u16,
    pub references: u32,
}

impl Tally {
    // The depths, from 1 on: so many counters.
    pub const DEPTHS: usize = 4095;
    // The references of a recording are at most so many, and so are the pages.
    pub const MOST_REFERENCES: usize = 4096;

    pub const LAST_PAGE: u16 = 4095;

    // The recordings of a tally are at most so many.
    pub const MOST_RECORDINGS: u16 = 65535;
}

// The answer of add: the refusal's number, 0 where the recording was accepted, and the head to go on with.
#[repr(C)]
#[derive(Clone, Copy)]
pub struct Added {
    pub refusal: u8,
    pub tally: Tally,
}

// The share at or below a size: those references, and all. Both are 0 beside a refusal.
#[repr(C)]
#[derive(Clone, Copy)]
pub struct Share {
    pub refusal: u8,
    pub within: u64,
    pub all: u64,
}
