// Unfix and evict: a page loses a pin, or its frame.
ghost use Rattle.std.specs.Prelude.{◌≡◌, ◌+◌, ◌*◌, ◌≤◌, length};
ghost use Rattle.page.specs.Figures.{page_size};
ghost use Rattle.rules.specs.RefusalNumbers.{refused_by};
ghost use Rattle.machine.specs.Machine.{state};
ghost use Rattle.machine.specs.Buffers.{buffered};
ghost use Rattle.machine.specs.Answers.{out, done_answer};
ghost use Rattle.machine.specs.Calls.{unfix_call, evict_call};
ghost use Rattle.machine.specs.Sweep.{standing};
ghost use Rattle.machine.proofs.Laws.Standings.{stay_number};

use machine::{Buffers, FrameRecord, Handle, Pool, Refusal, Standing};
use page::{FrameIndex, PageNumber, StoreNumber};
use residents::Tables;

// Takes one pin off a handle's page.
pub fn unfix(pool: &mut Pool, buffers: Buffers, handle: Handle) -> Result<(), Refusal>
    ensures { out (done_answer result) (buffered pool.new buffers.entry) ≡ unfix_call (buffered pool.old buffers.entry) handle }
{
    let mut tables = Tables::cleared();
    guard::handle_rules(pool, buffers, handle, &mut tables)?;
    let f = usize::from(handle.frame);
    pool.records[f] = records::unpinned(pool.records[f]);
    Ok(())
}

// Is a frame's page open to eviction, or by which rule does it stay: the first that holds.
fn open_to_eviction(
    rec: FrameRecord,
    frames: &[u8],
    frame: FrameIndex,
    stores: u8,
) -> Result<(), Refusal>
    requires { page_size * frame.0 + page_size ≤ length frames.now }
    ensures { refused_by result ≡ stay_number (standing stores rec frames.now frame.0) }
{
    match scan::standing::of(rec, frames, frame, stores) {
        Standing::Root => Err(Refusal::IsRoot),
        Standing::Pinned => Err(Refusal::IsPinned),
        Standing::Parent => Err(Refusal::IsParent),
        Standing::Evictable => Ok(()),
    }
}

// Takes a page out of its frame, if that is open to eviction.
pub fn evict(
    pool: &mut Pool,
    frames: &mut [u8],
    store: &mut [u8],
    directory: &mut [u8],
    of_store: StoreNumber,
    page: PageNumber,
) -> Result<(), Refusal>
    ensures { out (done_answer result) (state pool.new frames.new store.new directory.new) ≡ evict_call (state pool.old frames.old store.old directory.old) of_store.0 page }
{
    let mut tables = Tables::cleared();
    let buffers = Buffers {
        frames,
        store,
        directory,
    };
    guard::page_rules(pool, buffers, of_store, page, &mut tables)?;
    let count = frames.len() / PageNumber::SIZE;
    let found = scan::find_frame(&tables.residents, count, of_store, page);
    let frame = found.ok_or(Refusal::NotResident)?;
    let f = usize::from(frame);
    let rec = pool.records[f];
    open_to_eviction(rec, frames, frame, pool.stores)?;
    moves::take_out(rec, pool.pages, frames, store, directory, frame);
    pool.records[f] = records::empty();
    Ok(())
}
