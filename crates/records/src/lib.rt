// The records that calls leave. Each is made here alone, and is its definition.
#![tactic(auto)]

ghost use Rattle.std.specs.Prelude.{◌≡◌, ◌+◌, ◌<◌, min};
ghost use Rattle.page.specs.Figures.{max_usage, max_pins};
ghost use Rattle.machine.specs.Machine.{blank, root_record, loaded_record, pinned as one_pin_more, unpinned as one_pin_less, dirtied as now_dirty, cleaned as now_clean};

use machine::FrameRecord;
use page::{FrameIndex, PageNumber, StoreNumber};

// An empty frame's: all zero.
pub fn empty() -> FrameRecord
    ensures { result ≡ blank }
{
    FrameRecord {
        used: 0,
        dirty: 0,
        usage: 0,
        slot: 0,
        parent: FrameIndex(0),
        store: StoreNumber(0),
        pins: 0,
        page: PageNumber(0),
    }
}

// That of page 0 of a store, as open makes it.
pub fn root(of_store: StoreNumber) -> FrameRecord
    ensures { result ≡ root_record of_store.0 }
{
    FrameRecord {
        used: 1,
        store: of_store,
        ..empty()
    }
}

// A page's that is loaded for a slot of its parent's frame: resident, as a root is, and with a pin.
pub fn loaded(of_store: StoreNumber, page: PageNumber, parent: FrameIndex, slot: u8) -> FrameRecord
    ensures { result ≡ loaded_record of_store.0 page.0 parent.0 slot }
{
    FrameRecord {
        usage: 1,
        slot,
        parent,
        pins: 1,
        page,
        ..root(of_store)
    }
}

// The usage count up by one, to its largest value at most.
fn warmer(usage: u8) -> u8
    ensures { result ≡ min max_usage (usage + 1) }
{
    usage.saturating_add(1).min(FrameIndex::MAX_USAGE)
}

// One pin more, and one usage more.
pub fn pinned(rec: FrameRecord) -> FrameRecord
    requires { rec.pins < max_pins }
    ensures { result ≡ one_pin_more rec }
{
    FrameRecord {
        pins: rec.pins + 1,
        usage: warmer(rec.usage),
        ..rec
    }
}

// One pin off.
pub fn unpinned(rec: FrameRecord) -> FrameRecord
    requires { 0 < rec.pins }
    ensures { result ≡ one_pin_less rec }
{
    FrameRecord {
        pins: rec.pins - 1,
        ..rec
    }
}

// Changed since it was loaded or settled.
pub fn dirtied(rec: FrameRecord) -> FrameRecord
    ensures { result ≡ now_dirty rec }
{
    FrameRecord { dirty: 1, ..rec }
}

// As it is in the store.
pub fn cleaned(rec: FrameRecord) -> FrameRecord
    ensures { result ≡ now_clean rec }
{
    FrameRecord { dirty: 0, ..rec }
}
