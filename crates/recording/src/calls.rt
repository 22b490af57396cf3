// The nine calls: each takes its arguments from a record, and gives the record's line.
ghost use Rattle.std.specs.Prelude.{false, ◌≡◌, ◌≤◌};
ghost use Rattle.machine.specs.Machine.{state};
ghost use Rattle.machine.specs.Buffers.{buffered};
ghost use Rattle.machine.specs.Calls.{root_call, fix_call, unfix_call, write_call, link_call, unlink_call, evict_call, settle_call, find_call};
ghost use Rattle.recording.specs.Listing.{page_in_record, handle_in, parent_in, slot_in, offset_in, length_in, data_in};
ghost use Rattle.recording.specs.Lines.{lined, listed_out};

use crate::lines::Line;
use crate::{fields, lines};
use pool::{Buffers, Pool};

// Root; the record's other fields count for nothing.
pub fn root(pool: &mut Pool, buffers: Buffers, entry: &[u8; 16]) -> Line
    ensures { lined result (buffered pool.new buffers.entry) ≡ listed_out entry.now (root_call (buffered pool.old buffers.entry) 0) }
{
    lines::of_fix(pool::root(pool, buffers, fields::STORE), entry)
}

// Fix, by the record's handle and slot.
pub fn fix(
    pool: &mut Pool,
    frames: &mut [u8],
    store: &mut [u8],
    directory: &mut [u8],
    entry: &[u8; 16],
) -> Line
    ensures { lined result (state pool.new frames.new store.new directory.new) ≡ listed_out entry.now (fix_call (state pool.old frames.old store.old directory.old) (handle_in entry.now) (slot_in entry.now)) }
{
    let handle = fields::handle(entry);
    let slot = fields::slot(entry);
    let answer = pool::fix(pool, frames, store, directory, handle, slot);
    lines::of_fix(answer, entry)
}

// Unfix, by the record's handle.
pub fn unfix(pool: &mut Pool, buffers: Buffers, entry: &[u8; 16]) -> Line
    ensures { lined result (buffered pool.new buffers.entry) ≡ listed_out entry.now (unfix_call (buffered pool.old buffers.entry) (handle_in entry.now)) }
{
    let handle = fields::handle(entry);
    lines::of_done(pool::unfix(pool, buffers, handle), entry)
}

// Write, of the record's data at its offset.
pub fn write(
    pool: &mut Pool,
    frames: &mut [u8],
    store: &[u8],
    directory: &[u8],
    entry: &[u8; 16],
) -> Line
    requires { length_in entry.now ≤ 9 }
    ensures { lined result (state pool.new frames.new store.now directory.now) ≡ listed_out entry.now (write_call (state pool.old frames.old store.now directory.now) (handle_in entry.now) (offset_in entry.now) (data_in entry.now)) }
{
    let handle = fields::handle(entry);
    let offset = fields::offset(entry);
    let bytes = fields::bytes(entry);
    let answer = pool::write(pool, frames, store, directory, handle, offset, bytes);
    lines::of_done(answer, entry)
}

// Link, of the record's page at its slot of the parent's page, never with the mark of a locked page.
pub fn link(
    pool: &mut Pool,
    frames: &mut [u8],
    store: &[u8],
    directory: &[u8],
    entry: &[u8; 16],
) -> Line
    ensures { lined result (state pool.new frames.new store.now directory.now) ≡ listed_out entry.now (link_call (state pool.old frames.old store.now directory.now) (parent_in entry.now) (slot_in entry.now) (page_in_record entry.now) false) }
{
    let parent = fields::parent(entry);
    let slot = fields::slot(entry);
    let page = fields::page(entry);
    let answer = pool::link(pool, frames, store, directory, parent, slot, page, false);
    lines::of_done(answer, entry)
}

// Unlink, by the record's handle and slot.
pub fn unlink(
    pool: &mut Pool,
    frames: &mut [u8],
    store: &[u8],
    directory: &[u8],
    entry: &[u8; 16],
) -> Line
    ensures { lined result (state pool.new frames.new store.now directory.now) ≡ listed_out entry.now (unlink_call (state pool.old frames.old store.now directory.now) (handle_in entry.now) (slot_in entry.now)) }
{
    let handle = fields::handle(entry);
    let slot = fields::slot(entry);
    let answer = pool::unlink(pool, frames, store, directory, handle, slot);
    lines::of_done(answer, entry)
}

// Evict, of the record's page.
pub fn evict(
    pool: &mut Pool,
    frames: &mut [u8],
    store: &mut [u8],
    directory: &mut [u8],
    entry: &[u8; 16],
) -> Line
    ensures { lined result (state pool.new frames.new store.new directory.new) ≡ listed_out entry.now (evict_call (state pool.old frames.old store.old directory.old) 0 (page_in_record entry.now)) }
{
    let page = fields::page(entry);
    let answer = pool::evict(pool, frames, store, directory, fields::STORE, page);
    lines::of_done(answer, entry)
}

// Settle; the record's other fields count for nothing.
pub fn settle(
    pool: &mut Pool,
    frames: &[u8],
    store: &mut [u8],
    directory: &[u8],
    entry: &[u8; 16],
) -> Line
    ensures { lined result (state pool.new frames.now store.new directory.now) ≡ listed_out entry.now (settle_call (state pool.old frames.now store.old directory.now)) }
{
    lines::of_done(pool::settle(pool, frames, store, directory), entry)
}

// Find, of the record's page.
pub fn find(pool: &Pool, buffers: Buffers, entry: &[u8; 16]) -> Line
    ensures { lined result (buffered pool.now buffers.entry) ≡ listed_out entry.now (find_call (buffered pool.now buffers.entry) 0 (page_in_record entry.now)) }
{
    let page = fields::page(entry);
    lines::of_find(pool::find(pool, buffers, fields::STORE, page), entry)
}
