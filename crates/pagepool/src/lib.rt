// The pool's thirteen calls, the draws of a workload, and the tally of recorded fixes, for programs in C and Rust. A lent buffer is a pointer and a length there, and an answer a struct by value.
// include/pagepool.h declares them for C, the package rust/ for Rust.
#![tactic(auto)]

mod answers;
mod layout;

ghost use Rattle.std.specs.Prelude.{◌≡◌};
ghost use Rattle.machine.specs.Machine.{state};
ghost use Rattle.machine.specs.Answers.{out};
ghost use Rattle.machine.specs.Calls.{open_call, root_call, fix_call, unfix_call, show_call, peek_call, word_call, write_call, link_call, unlink_call, evict_call, settle_call, find_call};
ghost use Rattle.generator.specs.Generator.{seed_read};
ghost use Rattle.drawing.specs.Drawing.{drawn_out};
ghost use Rattle.depths.specs.Tallying.{add_out, share_out, report_out};
ghost use Rattle.pagepool.specs.Structs.{done_by, fixed_out, named_of, found_of, place_of};

use answers::{Done, Fixed, Found, Named, Place};
use depths::{Added, Share, Tally};
use drawing::Drawn;
use generator::Generator;
use pool::{Buffers, Handle, PageNumber, Pool, StoreNumber};

// The most resident pages of each store, as open takes them.
#[repr(C)]
#[derive(Clone, Copy)]
pub struct Ceilings {
    pub most: [u8; StoreNumber::MOST],
}

// Brings page 0 of each store into the frame of the store's number and gives the records of a new pool; refused, all-zero ones.
#[unsafe(no_mangle)]
pub extern "C" fn pool_open(
    frames: &mut [u8],
    store: &[u8],
    directory: &mut [u8],
    stores: u8,
    ceilings: Ceilings,
) -> Done
    ensures { out (done_by result.refusal) (state result.pool frames.new store.now directory.new) ≡ open_call stores ceilings.most frames.old store.now directory.old }
{
    let most = ceilings.most;
    answers::from_open(pool::open(frames, store, directory, stores, most))
}

// Pins page 0 of a store.
#[unsafe(no_mangle)]
pub extern "C" fn pool_root(
    pool: Pool,
    frames: &[u8],
    store: &[u8],
    directory: &[u8],
    of_store: StoreNumber,
) -> Fixed
    ensures { record { fixed = result; frames = frames.now; store = store.now; directory = directory.now } ≡ fixed_out (root_call (state pool frames.now store.now directory.now) of_store.0) }
{
    let mut pool = pool;
    let buffers = Buffers {
        frames,
        store,
        directory,
    };
    let answer = pool::root(&mut pool, buffers, of_store);
    answers::from_fix(pool, answer)
}

// Pins the page that a slot of a handle's page names.
#[unsafe(no_mangle)]
pub extern "C" fn pool_fix(
    pool: Pool,
    frames: &mut [u8],
    store: &mut [u8],
    directory: &mut [u8],
    handle: Handle,
    slot: usize,
) -> Fixed
    ensures { record { fixed = result; frames = frames.new; store = store.new; directory = directory.new } ≡ fixed_out (fix_call (state pool frames.old store.old directory.old) handle slot) }
{
    let mut pool = pool;
    let answer = pool::fix(&mut pool, frames, store, directory, handle, slot);
    answers::from_fix(pool, answer)
}

// Takes one pin off a handle's page.
#[unsafe(no_mangle)]
pub extern "C" fn pool_unfix(
    pool: Pool,
    frames: &[u8],
    store: &[u8],
    directory: &[u8],
    handle: Handle,
) -> Done
    ensures { out (done_by result.refusal) (state result.pool frames.now store.now directory.now) ≡ unfix_call (state pool frames.now store.now directory.now) handle }
{
    let mut pool = pool;
    let buffers = Buffers {
        frames,
        store,
        directory,
    };
    let answer = pool::unfix(&mut pool, buffers, handle);
    answers::from_done(pool, answer)
}

// Where the payload of the handle's page lies, for the host to read in its own buffer.
#[unsafe(no_mangle)]
pub extern "C" fn pool_show(
    pool: Pool,
    frames: &[u8],
    store: &[u8],
    directory: &[u8],
    handle: Handle,
) -> Place
    ensures { result ≡ place_of (show_call (state pool frames.now store.now directory.now) handle).answer }
{
    let buffers = Buffers {
        frames,
        store,
        directory,
    };
    answers::from_payload(pool::show_place(&pool, buffers, handle))
}

// Where the payload of a page of a store lies, in its frame if it is resident, otherwise in the store.
#[unsafe(no_mangle)]
pub extern "C" fn pool_peek(
    pool: Pool,
    frames: &[u8],
    store: &[u8],
    directory: &[u8],
    of_store: StoreNumber,
    page: PageNumber,
) -> Place
    ensures { result ≡ place_of (peek_call (state pool frames.now store.now directory.now) of_store.0 page).answer }
{
    let buffers = Buffers {
        frames,
        store,
        directory,
    };
    answers::from_payload(pool::peek_place(&pool, buffers, of_store, page))
}

// The page number in a slot of the handle's page, and whether that page is locked.
#[unsafe(no_mangle)]
pub extern "C" fn pool_word(
    pool: Pool,
    frames: &[u8],
    store: &[u8],
    directory: &[u8],
    handle: Handle,
    slot: usize,
) -> Named
    ensures { result ≡ named_of (word_call (state pool frames.now store.now directory.now) handle slot).answer }
{
    let buffers = Buffers {
        frames,
        store,
        directory,
    };
    answers::from_word(pool::word(&pool, buffers, handle, slot))
}

// Puts bytes at a payload offset of the handle's page.
#[unsafe(no_mangle)]
pub extern "C" fn pool_write(
    pool: Pool,
    frames: &mut [u8],
    store: &[u8],
    directory: &[u8],
    handle: Handle,
    offset: usize,
    bytes: &[u8],
) -> Done
    ensures { out (done_by result.refusal) (state result.pool frames.new store.now directory.now) ≡ write_call (state pool frames.old store.now directory.now) handle offset bytes.now }
{
    let mut pool = pool;
    let answer = pool::write(&mut pool, frames, store, directory, handle, offset, bytes);
    answers::from_done(pool, answer)
}

// Stores a page number in an empty slot of the handle's page, with the mark of a locked page or without.
#[unsafe(no_mangle)]
pub extern "C" fn pool_link(
    pool: Pool,
    frames: &mut [u8],
    store: &[u8],
    directory: &[u8],
    handle: Handle,
    slot: usize,
    page: PageNumber,
    locked: bool,
) -> Done
    ensures { out (done_by result.refusal) (state result.pool frames.new store.now directory.now) ≡ link_call (state pool frames.old store.now directory.now) handle slot page locked }
{
    let mut pool = pool;
    let answer = pool::link(
        &mut pool, frames, store, directory, handle, slot, page, locked,
    );
    answers::from_done(pool, answer)
}

// Clears a slot of the handle's page.
#[unsafe(no_mangle)]
pub extern "C" fn pool_unlink(
    pool: Pool,
    frames: &mut [u8],
    store: &[u8],
    directory: &[u8],
    handle: Handle,
    slot: usize,
) -> Done
    ensures { out (done_by result.refusal) (state result.pool frames.new store.now directory.now) ≡ unlink_call (state pool frames.old store.now directory.now) handle slot }
{
    let mut pool = pool;
    let answer = pool::unlink(&mut pool, frames, store, directory, handle, slot);
    answers::from_done(pool, answer)
}

// Takes a page of a store out of its frame.
#[unsafe(no_mangle)]
pub extern "C" fn pool_evict(
    pool: Pool,
    frames: &mut [u8],
    store: &mut [u8],
    directory: &mut [u8],
    of_store: StoreNumber,
    page: PageNumber,
) -> Done
    ensures { out (done_by result.refusal) (state result.pool frames.new store.new directory.new) ≡ evict_call (state pool frames.old store.old directory.old) of_store.0 page }
{
    let mut pool = pool;
    let answer = pool::evict(&mut pool, frames, store, directory, of_store, page);
    answers::from_done(pool, answer)
}

// Writes the image of each dirty page to its store.
#[unsafe(no_mangle)]
pub extern "C" fn pool_settle(pool: Pool, frames: &[u8], store: &mut [u8], directory: &[u8]) -> Done
    ensures { out (done_by result.refusal) (state result.pool frames.now store.new directory.now) ≡ settle_call (state pool frames.now store.old directory.now) }
{
    let mut pool = pool;
    let answer = pool::settle(&mut pool, frames, store, directory);
    answers::from_done(pool, answer)
}

// The frame that holds a page of a store, and how many entries of its chain were compared.
#[unsafe(no_mangle)]
pub extern "C" fn pool_find(
    pool: Pool,
    frames: &[u8],
    store: &[u8],
    directory: &[u8],
    of_store: StoreNumber,
    page: PageNumber,
) -> Found
    ensures { result ≡ found_of (find_call (state pool frames.now store.now directory.now) of_store.0 page).answer }
{
    let buffers = Buffers {
        frames,
        store,
        directory,
    };
    answers::from_find(pool::find(&pool, buffers, of_store, page))
}

// The generator of a seed.
#[unsafe(no_mangle)]
pub extern "C" fn pool_seeded(seed: u32) -> Generator
    ensures { result.number ≡ seed_read seed }
{
    generator::seeded(seed)
}

// The next record of a workload on the pool as it stands.
#[unsafe(no_mangle)]
pub extern "C" fn pool_draw(
    pool: Pool,
    frames: &[u8],
    store: &[u8],
    directory: &[u8],
    generator: Generator,
) -> Drawn
    ensures { result ≡ drawn_out (state pool frames.now store.now directory.now) generator }
{
    let buffers = Buffers {
        frames,
        store,
        directory,
    };
    drawing::draw_record(&pool, buffers, generator)
}

// Adds a recording to a tally.
#[unsafe(no_mangle)]
pub extern "C" fn pool_tally_add(tally: Tally, counts: &mut [u32], pages: &[u16]) -> Added
    ensures { record { added = result; counts = counts.new } ≡ add_out tally counts.old pages.now }
{
    counting::add(tally, counts, pages)
}

// The references at or below a size, and all.
#[unsafe(no_mangle)]
pub extern "C" fn pool_tally_share(tally: Tally, counts: &[u32], size: u64) -> Share
    ensures { result ≡ share_out tally counts.now size }
{
    counting::share_at(tally, counts, size)
}

// The hits of a cache of each size from 1 to 4,095.
#[unsafe(no_mangle)]
pub extern "C" fn pool_tally_report(counts: &[u32], hits: &mut [u64]) -> u8
    ensures { record { refusal = result; hits = hits.new } ≡ report_out counts.now hits.old }
{
    counting::report(counts, hits)
}
