// Root and fix: the calls that pin a page. A resident page is pinned where it is, another one is loaded first.
#![tactic(auto)]

mod load;

ghost use Rattle.std.specs.Prelude.{◌≡◌, ◌<◌};
ghost use Rattle.page.specs.Figures.{most_frames};
ghost use Rattle.machine.specs.Machine.{state};
ghost use Rattle.machine.specs.Buffers.{buffered};
ghost use Rattle.machine.specs.Answers.{out, fix_answer};
ghost use Rattle.machine.specs.Calls.{root_call, fix_call};
ghost use Rattle.fixing.specs.FixSteps.{PinnedAs};

use machine::{Buffers, Handle, Pinned, Pool, Refusal};
use page::{FrameIndex, PageNumber, StoreNumber, word};
use residents::Tables;

// Pins the page in a frame, if it has a pin left to give: rule 13.
fn pin(pool: &mut Pool, frame: FrameIndex) -> Result<Pinned, Refusal>
    requires { frame.0 < most_frames }
    ensures { PinnedAs pool.old frame.0 result pool.new }
{
    let f = usize::from(frame);
    let rec = pool.records[f];
    if rec.pins == FrameIndex::MAX_PINS {
        return Err(Refusal::TooManyPins);
    }
    pool.records[f] = records::pinned(rec);
    let handle = Handle {
        frame,
        store: rec.store,
        page: rec.page,
    };
    Ok(Pinned { handle, looks: 0 })
}

// Pins page 0 of a store, in the frame of the same number.
pub fn root(pool: &mut Pool, buffers: Buffers, of_store: StoreNumber) -> Result<Pinned, Refusal>
    ensures { out (fix_answer result) (buffered pool.new buffers.entry) ≡ root_call (buffered pool.old buffers.entry) of_store.0 }
{
    let mut tables = Tables::cleared();
    guard::store_rules(pool, buffers, of_store, &mut tables)?;
    pin(pool, FrameIndex(of_store.0))
}

// Pins the page that a slot of a handle's page names.
pub fn fix(
    pool: &mut Pool,
    frames: &mut [u8],
    store: &mut [u8],
    directory: &mut [u8],
    handle: Handle,
    slot: usize,
) -> Result<Pinned, Refusal>
    ensures { out (fix_answer result) (state pool.new frames.new store.new directory.new) ≡ fix_call (state pool.old frames.old store.old directory.old) handle slot }
{
    let mut tables = Tables::cleared();
    let buffers = Buffers {
        frames,
        store,
        directory,
    };
    guard::word_rules(pool, buffers, handle, slot, &mut tables)?;
    let parent = handle.frame;
    let name = page::slot::slot_name(frames, parent, slot);
    if name == word::NOTHING {
        return Err(Refusal::EmptySlot);
    }
    if word::is_number(name) {
        let of_store = handle.store;
        let page = PageNumber(name as u16);
        return load::bring_in(
            pool,
            frames,
            store,
            directory,
            parent,
            slot,
            of_store,
            page,
            &tables.residents,
            &mut tables.seen,
        );
    }
    let g = word::frame_in(name);
    pin(pool, FrameIndex(g as u8))
}
