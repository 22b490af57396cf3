// Structs with a value of its own in every field, by which a host tests that its declarations have the layout used here.
use crate::answers::{Done, Fixed, Found, Named, Place};
use depths::{Added, Share, Tally};
use drawing::Drawn;
use generator::Generator;
use pool::{FrameIndex, FrameRecord, Handle, PageNumber, Pool, StoreNumber};

// Records in none of which a number stands twice.
fn marked_pool() -> Pool {
    let mut records = pool::no_pool().records;
    for i in 0..FrameIndex::MOST as u8 {
        records[usize::from(i)] = FrameRecord {
            used: 192 + i,
            dirty: 255 - i,
            usage: i,
            slot: 64 + i,
            parent: FrameIndex(128 + i),
            store: StoreNumber(63 - i),
            pins: 1000 + u16::from(i),
            page: PageNumber(2000 + u16::from(i)),
        };
    }
    Pool {
        records,
        count: 3001,
        pages: 3002,
        stores: 227,
        ceilings: [228, 229, 230, 231],
        hand: FrameIndex(200),
    }
}

// The answer of a call without an answer of its own, marked.
#[unsafe(no_mangle)]
pub extern "C" fn pool_layout_done() -> Done {
    Done {
        refusal: 201,
        pool: marked_pool(),
    }
}

// The answer of root and fix, marked.
#[unsafe(no_mangle)]
pub extern "C" fn pool_layout_fixed() -> Fixed {
    let handle = Handle {
        frame: FrameIndex(203),
        store: StoreNumber(232),
        page: PageNumber(4001),
    };
    Fixed {
        refusal: 202,
        handle,
        looks: 4002,
        pool: marked_pool(),
    }
}

// The answer of word, marked.
#[unsafe(no_mangle)]
pub extern "C" fn pool_layout_named() -> Named {
    Named {
        refusal: 204,
        locked: true,
        page: PageNumber(4003),
    }
}

// The answer of find, marked.
#[unsafe(no_mangle)]
pub extern "C" fn pool_layout_found() -> Found {
    Found {
        refusal: 205,
        present: true,
        frame: FrameIndex(206),
        compared: 4004,
    }
}

// The answer of show and peek, marked.
#[unsafe(no_mangle)]
pub extern "C" fn pool_layout_place() -> Place {
    Place {
        refusal: 207,
        in_store: true,
        start: 5001,
        size: 5002,
    }
}

// A drawn record, marked.
#[unsafe(no_mangle)]
pub extern "C" fn pool_layout_drawn() -> Drawn {
    let entry: [u8; 16] = [
        209, 210, 211, 212, 213, 214, 215, 216, 217, 218, 219, 220, 221, 222, 223, 224,
    ];
    Drawn {
        refusal: 208,
        entry,
        generator: Generator { number: 5003 },
    }
}

// The answer of a tally's add, marked.
#[unsafe(no_mangle)]
pub extern "C" fn pool_layout_added() -> Added {
    Added {
        refusal: 225,
        tally: Tally {
            recordings: 5004,
            references: 70005,
        },
    }
}

// The answer of a tally's share, marked.
#[unsafe(no_mangle)]
pub extern "C" fn pool_layout_share() -> Share {
    Share {
        refusal: 226,
        within: 5000000006,
        all: 5000000007,
    }
}
