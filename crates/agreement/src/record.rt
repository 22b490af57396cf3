// A record by itself.
ghost use Rattle.std.specs.Prelude.{◌≡◌, ◌↔◌};
ghost use Rattle.rules.specs.Deciding.{Decides};
ghost use Rattle.agreement.specs.Fit.{Blank, RootFits, ResidentFits};

use machine::{FrameRecord, Pool};
use page::{FrameIndex, PageNumber};

// The largest value of a flag.
const MAX_FLAG: u8 = 1;

// The fields of a record or-ed together: 0 for the all-zero record alone. Neighbours are read at once, as the bytes or the digits of one number.
pub fn fields(rec: &FrameRecord) -> u32
    ensures { (result ≡ 0) ↔ Blank rec.now }
{
    let first = u32::from_le_bytes([rec.used, rec.dirty, rec.usage, rec.slot]);
    let middle = u16::from_le_bytes([rec.parent.0, rec.store.0]);
    let last = u32::from(rec.pins) + 65536 * u32::from(rec.page);
    first | u32::from(middle) | last
}

// Is the record all zero.
pub fn is_blank(rec: &FrameRecord) -> bool
    ensures { Decides result (Blank rec.now) }
{
    fields(rec) == 0
}

// Is a root's frame's record that of page 0 of its store, with no parent.
pub fn root_fits(rec: &FrameRecord, frame: FrameIndex) -> bool
    ensures { Decides result (RootFits frame.0 rec.now) }
{
    rec.pins <= FrameIndex::MAX_PINS
        && rec.usage <= FrameIndex::MAX_USAGE
        && rec.dirty <= MAX_FLAG
        && rec.slot == 0
        && rec.parent.0 == 0
        && rec.store.0 == frame.0
        && rec.page.0 == 0
        && rec.used == 1
}

// Is another occupied frame's record in range, and its page not a root's.
pub fn resident_fits(pool: &Pool, rec: &FrameRecord) -> bool
    ensures { Decides result (ResidentFits pool.now.count pool.now.pages pool.now.stores rec.now) }
{
    rec.pins <= FrameIndex::MAX_PINS
        && rec.usage <= FrameIndex::MAX_USAGE
        && rec.dirty <= MAX_FLAG
        && usize::from(rec.slot) < PageNumber::SLOTS
        && u16::from(rec.parent.0) < pool.count
        && rec.store.0 < pool.stores
        && rec.page.0 < pool.pages
        && rec.page.0 != 0
}
