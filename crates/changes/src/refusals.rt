// The rules of write, link and unlink.
ghost use Rattle.std.specs.Prelude.{◌≡◌};
ghost use Rattle.rules.specs.Tests.{first_broken};
ghost use Rattle.rules.specs.RefusalNumbers.{refused_by};
ghost use Rattle.machine.specs.Buffers.{buffered};
ghost use Rattle.machine.specs.Rules.{range_fits};
ghost use Rattle.machine.specs.Calls.{write_rules, link_rules, unlink_rules};

use machine::{Buffers, Handle, Pool, Refusal};
use page::PageNumber;
use residents::Tables;

// Rule 5: does a payload have room for so many bytes from the offset on.
fn range_fits(offset: usize, n: usize) -> bool
    ensures { result ≡ range_fits offset n }
{
    offset <= PageNumber::PAYLOAD_SIZE && n <= PageNumber::PAYLOAD_SIZE - offset
}

// Rules 1, 2, 28, 3, 5 and 26.
pub fn write_rules(
    pool: &Pool,
    buffers: Buffers,
    handle: Handle,
    offset: usize,
    n: usize,
) -> Result<(), Refusal>
    ensures { refused_by result ≡ first_broken (write_rules (buffered pool.now buffers.entry) handle offset n) }
{
    let mut tables = Tables::cleared();
    guard::handle_rules(pool, buffers, handle, &mut tables)?;
    if !range_fits(offset, n) {
        return Err(Refusal::BadRange);
    }
    if guard::is_frame_locked(pool, buffers.frames, handle.frame) {
        return Err(Refusal::IsLocked);
    }
    Ok(())
}

// Rules 1, 2, 28, 3, 4, 26, 6, 9 and 8.
pub fn link_rules(
    pool: &Pool,
    buffers: Buffers,
    handle: Handle,
    slot: usize,
    page: PageNumber,
) -> Result<(), Refusal>
    ensures { refused_by result ≡ first_broken (link_rules (buffered pool.now buffers.entry) handle slot page) }
{
    let mut tables = Tables::cleared();
    guard::edit_rules(pool, buffers, handle, slot, &mut tables)?;
    if page.0 == 0 || pool.pages <= page.0 {
        return Err(Refusal::BadPage);
    }
    let n = usize::from(pool.pages);
    if naming::is_named(
        &tables.residents,
        &tables.seen,
        buffers.store,
        n,
        handle.store,
        page,
    ) {
        return Err(Refusal::AlreadyNamed);
    }
    if page::slot::slot_name(buffers.frames, handle.frame, slot) != page::word::NOTHING {
        return Err(Refusal::FullSlot);
    }
    Ok(())
}

// Rules 1, 2, 28, 3, 4, 26, 7 and 10.
pub fn unlink_rules(
    pool: &Pool,
    buffers: Buffers,
    handle: Handle,
    slot: usize,
) -> Result<(), Refusal>
    ensures { refused_by result ≡ first_broken (unlink_rules (buffered pool.now buffers.entry) handle slot) }
{
    let mut tables = Tables::cleared();
    guard::edit_rules(pool, buffers, handle, slot, &mut tables)?;
    let name = page::slot::slot_name(buffers.frames, handle.frame, slot);
    if name == page::word::NOTHING {
        return Err(Refusal::EmptySlot);
    }
    if !page::word::is_number(name) {
        return Err(Refusal::Resident);
    }
    Ok(())
}
