// The rules that calls share, tested in their order: the first broken one refuses the call. Where none is, the tables tell the page in each frame, and which pages resident pages name.
#![tactic(auto)]

ghost use Rattle.std.specs.Prelude.{◌≡◌, ◌+◌, ◌*◌, ◌≤◌, ◌<◌, [], length};
ghost use Rattle.page.specs.Figures.{page_size, slot_count, most_frames, most_stores};
ghost use Rattle.rules.specs.Tests.{first_broken};
ghost use Rattle.rules.specs.RefusalNumbers.{refused_by};
ghost use Rattle.machine.specs.Machine.{state};
ghost use Rattle.machine.specs.Buffers.{buffered};
ghost use Rattle.machine.specs.Rules.{lengths_fit, ceiling_fits, stores_fit, handle_fits, locked};
ghost use Rattle.machine.specs.Calls.{pool_rules, store_rules, handle_rules, word_rules, edit_rules, page_rules};
ghost use Rattle.residents.specs.Handed.{Clear, Handed};
ghost use Rattle.guard.specs.Held.{ParentWithin, held_locked};

use machine::{Buffers, FrameRecord, Handle, Pool, Refusal};
use page::{FrameIndex, PageNumber, StoreNumber};
use residents::Tables;

// Rule 1: are F and N in their ranges, and have frames and store so many pages, the store for each of T stores.
pub fn lengths_fit(count: usize, pages: usize, stores: u8, frames: &[u8], store: &[u8]) -> bool
    ensures { result ≡ lengths_fit count pages stores frames.now store.now }
{
    FrameIndex::LEAST <= count
        && count <= FrameIndex::MOST
        && 1 <= pages
        && pages <= PageNumber::MOST
        && frames.len() == PageNumber::SIZE * count
        && store.len() == PageNumber::SIZE * (pages * usize::from(stores))
}

// Rule 1: is a store's ceiling 1 to F, or 0 where there is no such store.
fn ceiling_fits(
    count: usize,
    stores: u8,
    ceilings: [u8; StoreNumber::MOST],
    of_store: usize,
) -> bool
    requires { of_store < most_stores }
    ensures { result ≡ ceiling_fits count stores ceilings of_store }
{
    let ceiling = usize::from(ceilings[of_store]);
    if of_store < usize::from(stores) {
        return 1 <= ceiling && ceiling <= count;
    }
    ceiling == 0
}

// Rule 1: is T in its range, F above it, and does each ceiling fit.
pub fn stores_fit(count: usize, stores: u8, ceilings: [u8; StoreNumber::MOST]) -> bool
    ensures { result ≡ stores_fit count stores ceilings }
{
    if stores < 1 {
        return false;
    }
    if StoreNumber::MOST < usize::from(stores) {
        return false;
    }
    if count < usize::from(stores) + 1 {
        return false;
    }
    for t in 0..StoreNumber::MOST {
        if !ceiling_fits(count, stores, ceilings, t) {
            return false;
        }
    }
    true
}

// Rule 3: is the handle's frame one of the F frames, does it hold the handle's page, of its store, and is that pinned.
fn handle_fits(pool: &Pool, handle: Handle) -> bool
    requires { pool.now.count ≤ most_frames }
    ensures { result ≡ handle_fits pool.now handle }
{
    let f = usize::from(handle.frame);
    if usize::from(pool.count) <= f {
        return false;
    }
    let held = &pool.records[f];
    held.used == 1 && held.store == handle.store && held.page == handle.page && 0 < held.pins
}

// Rule 26: is the page in a frame locked. `held` is its record, found to be in range; the word that names the page is its parent's, and none names a root.
pub fn is_locked(held: &FrameRecord, frames: &[u8], frame: FrameIndex, stores: u8) -> bool
    requires { (page_size * held.now.parent.0 + page_size ≤ length frames.now) × (held.now.slot < slot_count) }
    ensures { result ≡ held_locked stores held.now frames.now frame.0 }
{
    if frame.0 < stores {
        return false;
    }
    let slot = usize::from(held.slot);
    page::word::is_marked(page::slot::slot_word(frames, held.parent, slot))
}

// The same by the pool's record of the frame.
pub fn is_frame_locked(pool: &Pool, frames: &[u8], frame: FrameIndex) -> bool
    requires { ParentWithin pool.now frames.now frame.0 }
    ensures { result ≡ locked (state pool.now frames.now [] []) frame.0 }
{
    is_locked(
        &pool.records[usize::from(frame)],
        frames,
        frame,
        pool.stores,
    )
}

// Rules 1 and 2.
pub fn pool_rules(pool: &Pool, buffers: Buffers, tables: &mut Tables) -> Result<(), Refusal>
    requires { Clear tables.old.residents tables.old.seen }
    ensures { (refused_by result ≡ first_broken (pool_rules (buffered pool.now buffers.entry))) × (refused_by result ≡ 0 → Handed pool.now buffers.entry.frames.now tables.new.residents tables.new.seen) }
{
    let count = usize::from(pool.count);
    let pages = usize::from(pool.pages);
    if !lengths_fit(count, pages, pool.stores, buffers.frames, buffers.store) {
        return Err(Refusal::WrongLength);
    }
    if !stores_fit(count, pool.stores, pool.ceilings) {
        return Err(Refusal::WrongLength);
    }
    if buffers.directory.len() != directory::SIZE {
        return Err(Refusal::WrongLength);
    }
    if !agreement::agrees(
        pool,
        buffers.frames,
        &mut tables.residents,
        &mut tables.seen,
    ) {
        return Err(Refusal::Disagree);
    }
    if !directory::chains_agree(&tables.residents, buffers.directory) {
        return Err(Refusal::Disagree);
    }
    Ok(())
}

// Rules 1, 2 and 28.
pub fn store_rules(
    pool: &Pool,
    buffers: Buffers,
    of_store: StoreNumber,
    tables: &mut Tables,
) -> Result<(), Refusal>
    requires { Clear tables.old.residents tables.old.seen }
    ensures { (refused_by result ≡ first_broken (store_rules (buffered pool.now buffers.entry) of_store.0)) × (refused_by result ≡ 0 → Handed pool.now buffers.entry.frames.now tables.new.residents tables.new.seen) }
{
    pool_rules(pool, buffers, tables)?;
    if pool.stores <= of_store.0 {
        return Err(Refusal::BadStore);
    }
    Ok(())
}

// Rules 1, 2, 28 and 3.
pub fn handle_rules(
    pool: &Pool,
    buffers: Buffers,
    handle: Handle,
    tables: &mut Tables,
) -> Result<(), Refusal>
    requires { Clear tables.old.residents tables.old.seen }
    ensures { (refused_by result ≡ first_broken (handle_rules (buffered pool.now buffers.entry) handle)) × (refused_by result ≡ 0 → Handed pool.now buffers.entry.frames.now tables.new.residents tables.new.seen) }
{
    store_rules(pool, buffers, handle.store, tables)?;
    if !handle_fits(pool, handle) {
        return Err(Refusal::BadHandle);
    }
    Ok(())
}

// Rules 1, 2, 28, 3 and 4.
pub fn word_rules(
    pool: &Pool,
    buffers: Buffers,
    handle: Handle,
    slot: usize,
    tables: &mut Tables,
) -> Result<(), Refusal>
    requires { Clear tables.old.residents tables.old.seen }
    ensures { (refused_by result ≡ first_broken (word_rules (buffered pool.now buffers.entry) handle slot)) × (refused_by result ≡ 0 → Handed pool.now buffers.entry.frames.now tables.new.residents tables.new.seen) }
{
    handle_rules(pool, buffers, handle, tables)?;
    if PageNumber::SLOTS <= slot {
        return Err(Refusal::BadSlot);
    }
    Ok(())
}

// Rules 1, 2, 28, 3, 4 and 26, for a call that changes the words of the handle's page.
pub fn edit_rules(
    pool: &Pool,
    buffers: Buffers,
    handle: Handle,
    slot: usize,
    tables: &mut Tables,
) -> Result<(), Refusal>
    requires { Clear tables.old.residents tables.old.seen }
    ensures { (refused_by result ≡ first_broken (edit_rules (buffered pool.now buffers.entry) handle slot)) × (refused_by result ≡ 0 → Handed pool.now buffers.entry.frames.now tables.new.residents tables.new.seen) }
{
    word_rules(pool, buffers, handle, slot, tables)?;
    if is_frame_locked(pool, buffers.frames, handle.frame) {
        return Err(Refusal::IsLocked);
    }
    Ok(())
}

// Rules 1, 2, 28 and 6.
pub fn page_rules(
    pool: &Pool,
    buffers: Buffers,
    of_store: StoreNumber,
    page: PageNumber,
    tables: &mut Tables,
) -> Result<(), Refusal>
    requires { Clear tables.old.residents tables.old.seen }
    ensures { (refused_by result ≡ first_broken (page_rules (buffered pool.now buffers.entry) of_store.0 page)) × (refused_by result ≡ 0 → Handed pool.now buffers.entry.frames.now tables.new.residents tables.new.seen) }
{
    store_rules(pool, buffers, of_store, tables)?;
    if pool.pages <= page.0 {
        return Err(Refusal::BadPage);
    }
    Ok(())
}
