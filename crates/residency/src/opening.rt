// Open: the records of a pool, the roots in their frames, and alone in the directory.
ghost use Rattle.std.specs.Prelude.{◌≡◌, ◌*◌, ◌≤◌, length};
ghost use Rattle.page.specs.Figures.{page_size, most_pages, most_stores};
ghost use Rattle.machine.specs.Machine.{opened_pool, zero_pool};
ghost use Rattle.machine.specs.Answers.{opened_out};
ghost use Rattle.machine.specs.Calls.{root_frames, open_call};

use machine::{Pool, Refusal};
use page::{FrameIndex, PageNumber, StoreNumber, StorePlace};

// F, N, T, the ceilings and the hand at 0; every record blank but the roots'.
fn pool_with(count: u16, pages: u16, stores: u8, ceilings: [u8; StoreNumber::MOST]) -> Pool
    requires { stores ≤ most_stores }
    ensures { result ≡ opened_pool count pages stores ceilings }
{
    let blank = records::empty();
    let mut records = [blank; FrameIndex::MOST];
    for t in 0..stores {
        records[usize::from(t)] = records::root(StoreNumber(t));
    }
    Pool {
        records,
        count,
        pages,
        stores,
        ceilings,
        hand: FrameIndex(0),
    }
}

// All-zero records, which a refused open leaves a host with.
pub fn no_pool() -> Pool
    ensures { result ≡ zero_pool }
{
    pool_with(0, 0, 0, [0; StoreNumber::MOST])
}

// Copies page 0 of each store to its frame.
fn bring_roots(frames: &mut [u8], store: &[u8], pages: u16, stores: u8)
    requires { (stores ≤ most_stores) × (1 ≤ pages) × (pages ≤ most_pages) × (page_size * stores ≤ length frames.old) × (length store.now ≡ page_size * (pages * stores)) }
    ensures { frames.new ≡ root_frames pages frames.old store.now stores }
{
    for t in 0..stores {
        let place = StorePlace::of(StoreNumber(t), PageNumber(0), pages);
        page::copy::to_frame(frames, FrameIndex(t), store, place);
    }
}

// Brings page 0 of each store into its frame, every other frame empty, enters them alone in the directory, and gives the pool's records.
pub fn open(
    frames: &mut [u8],
    store: &[u8],
    directory: &mut [u8],
    stores: u8,
    ceilings: [u8; StoreNumber::MOST],
) -> Result<Pool, Refusal>
    ensures { opened_out result frames.new store.now directory.new ≡ open_call stores ceilings frames.old store.now directory.old }
{
    let count = frames.len() / PageNumber::SIZE;
    if !guard::stores_fit(count, stores, ceilings) {
        return Err(Refusal::WrongLength);
    }
    let pages = store.len() / (PageNumber::SIZE * usize::from(stores));
    if !guard::lengths_fit(count, pages, stores, frames, store) {
        return Err(Refusal::WrongLength);
    }
    if directory.len() != directory::SIZE {
        return Err(Refusal::WrongLength);
    }
    let n = pages as u16;
    if !soundness::is_sound(store, n, stores) {
        return Err(Refusal::UnsoundStore);
    }
    bring_roots(frames, store, n, stores);
    directory::start(directory, stores);
    Ok(pool_with(count as u16, n, stores, ceilings))
}
