// The pool's records and the answers of its calls. What they mean stands in specs/: document 01 as definitions, and demand 3.
#![tactic(auto)]

use page::{FrameIndex, PageNumber, StoreNumber};
pub use rules::Refusal;

// What is known of one frame (document 01: its record). The all-zero record is the empty frame's.
#[repr(C)]
#[derive(Clone, Copy)]
pub struct FrameRecord {
    // Two flags, each a byte that is 0 or 1: what a host hands in is any byte, and rule 2 refuses the others.
    pub used: u8,
    pub dirty: u8,
    // Document 01: heat.
    pub usage: u8,
    pub slot: u8,
    pub parent: FrameIndex,
    // Request A.11: the store that the page is of.
    pub store: StoreNumber,
    pub pins: u16,
    pub page: PageNumber,
}

// The pool's records: one for each of up to 64 frames, F, N, T, the stores' ceilings and the clock hand.
#[repr(C)]
#[derive(Clone, Copy)]
pub struct Pool {
    pub records: [FrameRecord; FrameIndex::MOST],
    // F.
    pub count: u16,
    // N.
    pub pages: u16,
    // T.
    pub stores: u8,
    // The most resident pages of each store, its root included; 0 where there is no store.
    pub ceilings: [u8; StoreNumber::MOST],
    pub hand: FrameIndex,
}

#[repr(C)]
#[derive(Clone, Copy)]
pub struct Handle {
    pub frame: FrameIndex,
    pub store: StoreNumber,
    pub page: PageNumber,
}

// The buffers lent to a call, as it reads them: frames, store and directory.
#[derive(Clone, Copy)]
pub struct Buffers<'a> {
    pub frames: &'a [u8],
    pub store: &'a [u8],
    pub directory: &'a [u8],
}

// What root and fix give: the handle and the looks of the sweep.
#[derive(Clone, Copy)]
pub struct Pinned {
    pub handle: Handle,
    pub looks: u16,
}

// What word gives: the page number in the slot, 0 for none, and whether that page is locked.
#[derive(Clone, Copy)]
pub struct Named {
    pub page: PageNumber,
    pub locked: bool,
}

// What find gives: the frame, or that there is none, and the entries of the directory compared.
#[derive(Clone, Copy)]
pub struct Found {
    pub frame: Option<FrameIndex>,
    pub compared: u16,
}

// What show and peek give: where the payload lies, in the store or in the frames, from `start` on, `size` bytes.
#[derive(Clone, Copy)]
pub struct Payload {
    pub in_store: bool,
    pub start: usize,
    pub size: usize,
}

// Why a page stays in its frame, told apart: it is a root, it is pinned, a word of it is swizzled. The first of these that holds; a page of which none does is open to eviction.
#[derive(Clone, Copy)]
pub enum Standing {
    Root,
    Pinned,
    Parent,
    Evictable,
}
