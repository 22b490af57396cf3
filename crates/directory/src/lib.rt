// The directory of resident pages: rule 2's test of its chains, an entry that comes in and one that goes, and the search.
#![tactic(auto)]

ghost use Rattle.std.specs.Prelude.{ℕ, ◌≡◌, true, ◌+◌, ◌%◌, ◌<◌, ◌≤◌, length, get_or, set};
ghost use Rattle.page.specs.Figures.{most_frames, most_pages, most_stores};
ghost use Rattle.chains.specs.Chain.{directory_size, buckets, bucket_of, opened_directory, entered, taken_out, sought_in};
ghost use Rattle.chains.specs.Links.{Chained};
ghost use Rattle.residents.specs.Residents.{key_of, key_by};
ghost use Rattle.rules.specs.Deciding.{Decides};
ghost use Rattle.directory.specs.Homes.{home_by, Followed, sought_as};
ghost use Rattle.directory.specs.HomeFilling.{home_with};
ghost use Rattle.directory.specs.Pass.{met, HomeTable, Kinds, NoneAwaited};
ghost use Rattle.directory.specs.ChainPasses.{row_size, Headless, Passes};

use page::{FrameIndex, PageNumber, StoreNumber};
use residents::Residents;

// How many chains there are, and the bytes of a directory: a head for each chain, and the next of each frame.
pub const BUCKETS: usize = 67;

pub const SIZE: usize = 131;

// A page belongs in the chain whose number is its remainder by this.
const DIVISOR: u16 = 67;

// In the table of the chain that each frame is awaited in: no chain.
const NOWHERE: u16 = 67;

// A frame that was met. It is above NOWHERE and any byte together.
const MET: u16 = 323;

// How many chains are looked at together, and how many rows of that many there are.
const ROW: usize = 8;

const ROWS: usize = 8;

// How many entries a chain is followed over in a search: one more than there are frames.
const MOST_ENTRIES: u16 = 65;

// Where a page is: its frame, if it is resident, and the entries compared.
#[derive(Clone, Copy)]
pub struct Sought {
    pub frame: Option<FrameIndex>,
    pub compared: u16,
}

// The chain of a page.
fn bucket(page: PageNumber) -> u16
    ensures { (result ≡ bucket_of page.0) × (result < buckets) }
{
    page.0 % DIVISOR
}

// The chain of the page with this key: pages of all stores share the chains.
fn remainder(key: u16) -> u16
    ensures { result ≡ bucket_of (key % most_pages) }
{
    bucket(residents::page_of(key))
}

// The chain of the page with this key in a frame other than 0, NOWHERE for 0, which says that the frame is empty.
#[tactic(auto, unfolding(crate::specs::HomeFilling::home_with, rules::specs::Tests::pick))]
fn home(key: u16) -> u16
    ensures { result ≡ home_with key }
{
    if key == 0 {
        return NOWHERE;
    }
    remainder(key)
}

// The chain that each frame belongs in, NOWHERE for none. No frame is branched on, so that the compiler takes them side by side.
fn homes(residents: &Residents) -> [u16; FrameIndex::MOST]
    ensures { HomeTable (home_by residents.now) result }
{
    let mut homes = [NOWHERE; FrameIndex::MOST];
    for f in 0..FrameIndex::MOST {
        homes[f] = home(residents[f]);
    }
    homes[0] = remainder(residents[0]);
    homes
}

// The least that may be awaited of a frame whose link this is.
fn least(link: u8) -> u16
    ensures { (result ≡ buckets + link) × (result < met) }
{
    NOWHERE + u16::from(link)
}

// Is no frame awaited, and each link of an empty one 0. The frames are taken side by side.
fn none_awaited(awaited: &[u16; FrameIndex::MOST], directory: &[u8]) -> bool
    requires { (length directory.now ≡ directory_size) × Kinds awaited.now }
    ensures { Decides result (NoneAwaited awaited.now directory.now) }
{
    let mut hit = false;
    for f in 0..FrameIndex::MOST {
        let link = directory[BUCKETS + f];
        if awaited[f] < least(link) {
            hit = true;
        }
    }
    !hit
}

// Follows a chain: are the frames in it awaited there, each once. Each is awaited no more then, so that the walk ends, without a count.
fn follow(directory: &[u8], awaited: &mut [u16; FrameIndex::MOST], b: usize) -> bool
    requires { (length directory.now ≡ directory_size) × (length awaited.old ≡ most_frames) × (b < buckets) }
    ensures { Passes directory.now awaited.old awaited.new b (b + 1) result }
{
    let mut at = b;
    let mut x = usize::from(directory[at]);
    while x != 0 {
        let f = x - 1;
        if FrameIndex::MOST <= f {
            return false;
        }
        if usize::from(awaited[f]) != b {
            return false;
        }
        awaited[f] = MET;
        at = BUCKETS + f;
        x = usize::from(directory[at]);
    }
    true
}

// Has none of the chains of a row a frame. Their heads are taken side by side.
fn row_is_empty(directory: &[u8], first: usize) -> bool
    requires { (length directory.now ≡ directory_size) × (first + row_size ≤ buckets) }
    ensures { result ≡ true → Headless directory.now first row_size }
{
    let mut none = true;
    for i in 0..ROW {
        let x = directory[first + i];
        if x != 0 {
            none = false;
        }
    }
    none
}

// Follows the chains of a row.
fn follow_row(directory: &[u8], awaited: &mut [u16; FrameIndex::MOST], first: usize) -> bool
    requires { (length directory.now ≡ directory_size) × (length awaited.old ≡ most_frames) × (first + row_size ≤ buckets) }
    ensures { Passes directory.now awaited.old awaited.new first (first + row_size) result }
{
    if row_is_empty(directory, first) {
        return true;
    }
    for b in first..first + ROW {
        if !follow(directory, awaited, b) {
            return false;
        }
    }
    true
}

// Do the chains give exactly the resident pages of their remainders, each once, and is every other byte 0. Each chain is followed once, and a row of empty ones is passed at once.
pub fn chains_agree(residents: &Residents, directory: &[u8]) -> bool
    requires { length directory.now ≡ directory_size }
    ensures { Decides result (Chained (home_by residents.now) directory.now) }
{
    let mut awaited = homes(residents);
    for row in 0..ROWS {
        if !follow_row(directory, &mut awaited, ROW * row) {
            return false;
        }
    }
    for b in ROW * ROWS..BUCKETS {
        if !follow(directory, &mut awaited, b) {
            return false;
        }
    }
    none_awaited(&awaited, directory)
}

// A directory with the stores' roots alone in it, in frame 0 and on, entered in that order.
pub fn start(directory: &mut [u8], stores: u8)
    requires { (length directory.old ≡ directory_size) × (stores ≤ most_stores) }
    ensures { directory.new ≡ opened_directory stores }
{
    directory.fill(0);
    for t in 0..stores {
        enter(directory, FrameIndex(t), PageNumber(0));
    }
}

// A page that comes into a frame: its entry is its chain's head.
#[tactic(auto, unfolding(chains::specs::Chain::entered))]
pub fn enter(directory: &mut [u8], frame: FrameIndex, page: PageNumber)
    requires { (length directory.old ≡ directory_size) × (frame.0 < most_frames) }
    ensures { directory.new ≡ entered directory.old (bucket_of page.0) frame.0 }
{
    let b = usize::from(bucket(page));
    let at = BUCKETS + usize::from(frame);
    let head = directory[b];
    directory[at] = head;
    directory[b] = frame.0 + 1;
}

// Puts the byte at `own` in place of the one at `at`, and 0 in its own.
fn pass_over(directory: &mut [u8], at: usize, own: usize)
    requires { (at < length directory.old) × (own < length directory.old) }
    ensures { directory.new ≡ set (set directory.old at (get_or directory.old own 0)) own 0 }
{
    let next = directory[own];
    directory[at] = next;
    directory[own] = 0;
}

// A page that leaves its frame: its entry goes from its chain, and the others keep their order.
pub fn take_out(directory: &mut [u8], frame: FrameIndex, page: PageNumber)
    requires { Followed directory.old × (frame.0 < most_frames) }
    ensures { directory.new ≡ taken_out directory.old (bucket_of page.0) frame.0 }
{
    let own = BUCKETS + usize::from(frame);
    let mut at = usize::from(bucket(page));
    for _n in 0..FrameIndex::MOST {
        let x = directory[at];
        if x == 0 {
            return;
        }
        if x == frame.0 + 1 {
            pass_over(directory, at, own);
            return;
        }
        at = BUCKETS + usize::from(x - 1);
    }
}

// The frame that holds the page, if one does, and the entries compared.
pub fn seek(
    residents: &Residents,
    directory: &[u8],
    of_store: StoreNumber,
    page: PageNumber,
) -> Sought
    requires { Followed directory.now × (of_store.0 < most_stores) × (page.0 < most_pages) }
    ensures { (F : ℕ) → sought_as F result ≡ sought_in (key_by residents.now) F directory.now (bucket_of page.0) (key_of of_store.0 page.0) }
{
    let sought = residents::key(of_store, page);
    let mut at = usize::from(bucket(page));
    for compared in 0..MOST_ENTRIES {
        let x = usize::from(directory[at]);
        if x == 0 {
            return Sought {
                frame: None,
                compared,
            };
        }
        let f = x - 1;
        if residents[f] == sought {
            return Sought {
                frame: Some(FrameIndex(f as u8)),
                compared: compared + 1,
            };
        }
        at = BUCKETS + f;
    }
    Sought {
        frame: None,
        compared: MOST_ENTRIES,
    }
}
