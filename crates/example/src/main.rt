// The pool in Rattle, call by call, with two stores over the same frames: page 5 of store 1 comes under its root, is written and shown, is peeked at while it is resident and after its eviction, and the stores are settled. Store 0's page 5 is another one.
#![tactic(auto)]

mod print;

use pool::{Buffers, Handle, PageNumber, Pool, StoreNumber};
use std::io;

// 4 frames, two stores of 8 pages each, and the directory.
const FRAMES: usize = 4 * PageNumber::SIZE;

const STORE: usize = 2 * 8 * PageNumber::SIZE;

const DIRECTORY: usize = directory::SIZE;

// T, and how many pages of each store may be resident: 3 of store 0, and 2 of store 1, its root and one more.
const STORES: u8 = 2;

const CEILINGS: [u8; StoreNumber::MOST] = [3, 2, 0, 0];

const FIRST: StoreNumber = StoreNumber(0);

const SECOND: StoreNumber = StoreNumber(1);

// The page under store 1's root, and the slot of the root that names it.
const PAGE: PageNumber = PageNumber(5);

const SLOT: usize = 3;

// A further page there.
const NEXT_PAGE: PageNumber = PageNumber(6);

const NEXT_SLOT: usize = 4;

// Show hands back a part of the frames, and puts its number into one that is lent.
fn show(rt: &impl Print, pool: &Pool, buffers: Buffers, handle: Handle) -> io::Result<()> {
    let mut refusal = 0;
    let part = pool::show(
        pool,
        buffers.frames,
        buffers.store,
        buffers.directory,
        handle,
        &mut refusal,
    );
    print::payload(rt, "show", refusal, part)
}

// Peek needs no handle; its part is one of the frames where the page is resident, otherwise one of the stores. The two stores' pages of one number share a chain of the directory.
fn peek(rt: &impl Print, pool: &Pool, buffers: Buffers) -> io::Result<()> {
    print::found(rt, "find", pool::find(pool, buffers, SECOND, PAGE))?;
    print::found(
        rt,
        "find in store 0",
        pool::find(pool, buffers, FIRST, PAGE),
    )?;
    let mut refusal = 0;
    let part = pool::peek(
        pool,
        buffers.frames,
        buffers.store,
        buffers.directory,
        SECOND,
        PAGE,
        &mut refusal,
    );
    print::payload(rt, "peek", refusal, part)
}

// The page is shown and peeked at; without its pin it can leave its frame. Its handle is then stale, and peek finds it in the store.
fn leave(
    rt: &impl Print,
    pool: &mut Pool,
    frames: &mut [u8; FRAMES],
    store: &mut [u8; STORE],
    directory: &mut [u8; DIRECTORY],
    handle: Handle,
) -> io::Result<()> {
    let resident = Buffers {
        frames,
        store,
        directory,
    };
    show(rt, pool, resident, handle)?;
    peek(rt, pool, resident)?;
    let unfixed = pool::unfix(pool, resident, handle);
    print::done(rt, "unfix", unfixed)?;

    let evicted = pool::evict(pool, frames, store, directory, SECOND, PAGE);
    print::done(rt, "evict", evicted)?;

    let stored = Buffers {
        frames,
        store,
        directory,
    };
    show(rt, pool, stored, handle)?;
    peek(rt, pool, stored)?;
    let settled = pool::settle(pool, frames, store, directory);
    print::done(rt, "settle", settled)
}

// The store is at its ceiling: while its page is pinned, no further one comes in, though a frame is empty.
fn crowd(
    rt: &impl Print,
    pool: &mut Pool,
    frames: &mut [u8; FRAMES],
    store: &mut [u8; STORE],
    directory: &mut [u8; DIRECTORY],
    root: Handle,
    child: Handle,
) -> io::Result<()> {
    let linked = pool::link(
        pool, frames, store, directory, root, NEXT_SLOT, NEXT_PAGE, false,
    );
    print::done(rt, "link", linked)?;

    let denied = pool::fix(pool, frames, store, directory, root, NEXT_SLOT);
    print::pinned(rt, "fix", denied)?;
    leave(rt, pool, frames, store, directory, child)
}

// The page comes under the root, and is written.
fn come(
    rt: &impl Print,
    pool: &mut Pool,
    frames: &mut [u8; FRAMES],
    store: &mut [u8; STORE],
    directory: &mut [u8; DIRECTORY],
    root: Handle,
) -> io::Result<()> {
    let linked = pool::link(pool, frames, store, directory, root, SLOT, PAGE, false);
    print::done(rt, "link", linked)?;

    let fixed = pool::fix(pool, frames, store, directory, root, SLOT);
    print::pinned(rt, "fix", fixed)?;
    let Ok(child) = fixed else {
        return Ok(());
    };

    let text = b"a page under the root";
    let written = pool::write(pool, frames, store, directory, child.handle, 0, text);
    print::done(rt, "write", written)?;
    crowd(rt, pool, frames, store, directory, root, child.handle)
}

fn main(rt: HostRuntime) -> io::Result<()> {
    let mut frames = [0u8; FRAMES];
    let mut store = [0u8; STORE];
    let mut directory = [0u8; DIRECTORY];
    let opened = pool::open(&mut frames, &store, &mut directory, STORES, CEILINGS);
    let mut pool = match opened {
        Ok(pool) => pool,
        Err(refusal) => return print::done(&rt, "open", Err(refusal)),
    };
    print::done(&rt, "open", Ok(()))?;

    let buffers = Buffers {
        frames: &frames,
        store: &store,
        directory: &directory,
    };
    let rooted = pool::root(&mut pool, buffers, SECOND);
    print::pinned(&rt, "root", rooted)?;
    let Ok(root) = rooted else {
        return Ok(());
    };
    come(
        &rt,
        &mut pool,
        &mut frames,
        &mut store,
        &mut directory,
        root.handle,
    )
}
