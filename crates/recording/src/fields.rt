// The fields of a record.
ghost use Rattle.std.specs.Prelude.{◌≡◌, ◌+◌, ◌*◌, ◌≤◌, true, false, MatchResult};
ghost use Rattle.rules.specs.declared.refusal.Refusal.TheVariants.{NoCall};
ghost use Rattle.recording.specs.CallNumbers.{number_of_call};
ghost use Rattle.machine.specs.Machine.{page_number};
ghost use Rattle.page.specs.Figures.{byte_radix};
ghost use Rattle.recording.specs.Listing.{call_in, page_in_record, handle_in, parent_in, slot_in, offset_in, length_in, data_in, rule17};

use crate::call::Call;
use page::{FrameIndex, PageNumber, StoreNumber};
use pool::{Handle, Refusal};

// Where the fields stand.
pub const CALL: usize = 0;

const FRAME: usize = 1;

const PAGE: usize = 2;

const SLOT: usize = 4;

const OFFSET: usize = 5;

const LENGTH: usize = 6;

const DATA: usize = 7;

// The listing has one store.
pub const STORE: StoreNumber = StoreNumber(0);

// The most bytes of data.
const MOST_DATA: u8 = 9;

// Rule 17: the call, if it is one of 1 to 9 and the length at most 9.
pub fn call(entry: &[u8; 16]) -> Result<Call, Refusal>
    ensures { MatchResult result (λ k. ((rule17 entry.now).1 ≡ true) × (call_in entry.now ≡ number_of_call k)) (λ r. (r ≡ NoCall) × ((rule17 entry.now).1 ≡ false)) }
{
    if MOST_DATA < entry[LENGTH] {
        return Err(Refusal::NoCall);
    }
    Call::try_from(entry[CALL])
}

// The page number in two bytes, little-endian.
fn page_of(low: u8, high: u8) -> PageNumber
    ensures { result ≡ page_number (low + byte_radix * high) }
{
    PageNumber(u16::from_le_bytes([low, high]))
}

// The page of a record.
pub fn page(entry: &[u8; 16]) -> PageNumber
    ensures { result ≡ page_in_record entry.now }
{
    page_of(entry[PAGE], entry[PAGE + 1])
}

// The handle of a record.
pub fn handle(entry: &[u8; 16]) -> Handle
    ensures { result ≡ handle_in entry.now }
{
    let frame = FrameIndex(entry[FRAME]);
    let page = page(entry);
    Handle {
        frame,
        store: STORE,
        page,
    }
}

// The handle of link's parent, whose page stands where other calls have data.
pub fn parent(entry: &[u8; 16]) -> Handle
    ensures { result ≡ parent_in entry.now }
{
    let frame = FrameIndex(entry[FRAME]);
    let page = page_of(entry[DATA], entry[DATA + 1]);
    Handle {
        frame,
        store: STORE,
        page,
    }
}

// The slot of a record.
pub fn slot(entry: &[u8; 16]) -> usize
    ensures { result ≡ slot_in entry.now }
{
    usize::from(entry[SLOT])
}

// The payload offset of a record.
pub fn offset(entry: &[u8; 16]) -> usize
    ensures { result ≡ offset_in entry.now }
{
    usize::from(entry[OFFSET])
}

// The data of a record, as many bytes as its length says.
pub fn bytes(entry: &[u8; 16]) -> &[u8]
    requires { length_in entry.now ≤ 9 }
    ensures { result.now ≡ data_in entry.now }
{
    let whole: &[u8] = entry;
    let end = DATA + usize::from(entry[LENGTH]);
    &whole[DATA..end]
}
