// The structs that stand for answers in C, each made of the pool and what a call answers. The pool comes first in each that has one, so that it is copied out before anything else is written there.
ghost use Rattle.std.specs.Prelude.{◌≡◌};
ghost use Rattle.machine.specs.Answers.{fix_answer, word_answer, find_answer, payload_answer};
ghost use Rattle.pagepool.specs.Structs.{done_of, opened_of, fixed_of, named_of, found_of, place_of};

use pool::{FrameIndex, Handle, PageNumber, Payload, Pinned, Pool, Refusal, StoreNumber};
use rules::refusal;

// The answer of a call without an answer of its own: the records, and the refusal's number, 0 where it was accepted.
#[repr(C)]
#[derive(Clone, Copy)]
pub struct Done {
    pub pool: Pool,
    pub refusal: u8,
}

// The answer of root and fix: the records, the handle and the looks of the sweep.
#[repr(C)]
#[derive(Clone, Copy)]
pub struct Fixed {
    pub pool: Pool,
    pub refusal: u8,
    pub handle: Handle,
    pub looks: u16,
}

// The answer of word: the page number in the slot, 0 for none, and whether that page is locked.
#[repr(C)]
#[derive(Clone, Copy)]
pub struct Named {
    pub refusal: u8,
    pub locked: bool,
    pub page: PageNumber,
}

// The answer of find: whether the page is resident, its frame, and the entries compared.
#[repr(C)]
#[derive(Clone, Copy)]
pub struct Found {
    pub refusal: u8,
    pub present: bool,
    pub frame: FrameIndex,
    pub compared: u16,
}

// Where a payload lies, as numbers: in the store or in the frames, from `start` on, `size` bytes. Beside a refusal: no bytes, at the start of the frames.
#[repr(C)]
#[derive(Clone, Copy)]
pub struct Place {
    pub refusal: u8,
    pub in_store: bool,
    pub start: usize,
    pub size: usize,
}

// The struct for an answer of a call without one of its own.
pub fn from_done(pool: Pool, answer: Result<(), Refusal>) -> Done
    ensures { result ≡ done_of pool answer }
{
    Done {
        pool,
        refusal: refusal::refusal_number(answer),
    }
}

// The struct for an answer of open, with all-zero records beside a refusal.
pub fn from_open(opened: Result<Pool, Refusal>) -> Done
    ensures { result ≡ opened_of opened }
{
    match opened {
        Ok(pool) => Done { pool, refusal: 0 },
        Err(refusal) => Done {
            pool: pool::no_pool(),
            refusal: refusal.number(),
        },
    }
}

// The struct for an answer of root or fix.
pub fn from_fix(pool: Pool, answer: Result<Pinned, Refusal>) -> Fixed
    ensures { result ≡ fixed_of (fix_answer answer) pool }
{
    match answer {
        Ok(pinned) => Fixed {
            pool,
            refusal: 0,
            handle: pinned.handle,
            looks: pinned.looks,
        },
        Err(refusal) => {
            let handle = Handle {
                frame: FrameIndex(0),
                store: StoreNumber(0),
                page: PageNumber(0),
            };
            Fixed {
                pool,
                refusal: refusal.number(),
                handle,
                looks: 0,
            }
        }
    }
}

// The struct for an answer of word.
pub fn from_word(answer: Result<pool::Named, Refusal>) -> Named
    ensures { result ≡ named_of (word_answer answer) }
{
    match answer {
        Ok(named) => Named {
            refusal: 0,
            locked: named.locked,
            page: named.page,
        },
        Err(refusal) => Named {
            refusal: refusal.number(),
            locked: false,
            page: PageNumber(0),
        },
    }
}

// The struct for an answer of find.
pub fn from_find(answer: Result<pool::Found, Refusal>) -> Found
    ensures { result ≡ found_of (find_answer answer) }
{
    match answer {
        Ok(found) => match found.frame {
            Some(frame) => Found {
                refusal: 0,
                present: true,
                frame,
                compared: found.compared,
            },
            None => Found {
                refusal: 0,
                present: false,
                frame: FrameIndex(0),
                compared: found.compared,
            },
        },
        Err(refusal) => Found {
            refusal: refusal.number(),
            present: false,
            frame: FrameIndex(0),
            compared: 0,
        },
    }
}

// The struct for an answer of show or peek.
pub fn from_payload(answer: Result<Payload, Refusal>) -> Place
    ensures { result ≡ place_of (payload_answer answer) }
{
    match answer {
        Ok(payload) => Place {
            refusal: 0,
            in_store: payload.in_store,
            start: payload.start,
            size: payload.size,
        },
        Err(refusal) => Place {
            refusal: refusal.number(),
            in_store: false,
            start: 0,
            size: 0,
        },
    }
}
