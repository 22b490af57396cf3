// A page that is not resident comes in.
ghost use Rattle.std.specs.Prelude.{◌≡◌, not, Ok, ◌+◌, ◌*◌, ◌≤◌, ◌<◌, leb, length};
ghost use Rattle.page.specs.Figures.{page_size, slot_count, most_frames, most_stores};
ghost use Rattle.rules.specs.Tests.{pick, ◌and◌};
ghost use Rattle.machine.specs.Machine.{state, is_of, ceiling_of, at_ceiling as own_frames_alone};
ghost use Rattle.machine.specs.Answers.{out, fix_answer};
ghost use Rattle.machine.specs.Calls.{loaded_out};
ghost use Rattle.machine.specs.Sweep.{kind_for};
ghost use Rattle.machine.proofs.Laws.Ready.{Kept};
ghost use Rattle.residents.specs.Residents.{held_by};
ghost use Rattle.residents.specs.Handed.{Handed};
ghost use Rattle.scan.specs.FoundByTable.{Told, empty_by};
ghost use Rattle.scan.specs.Walk.{Few, Sees};
ghost use Rattle.moves.specs.InAndOut.{Fitting};
ghost use Rattle.fixing.specs.FixSteps.{Cooling, miss_decided};

use machine::{FrameRecord, Handle, Pinned, Pool, Refusal};
use page::{FrameIndex, PageNumber, StoreNumber};
use residents::Residents;
use seen::Seen;

// Has the store as many resident pages as its ceiling, by the table of the page in each frame.
fn is_at_ceiling(pool: &Pool, residents: &Residents, of_store: StoreNumber) -> bool
    requires { (0 < pool.now.count) × (pool.now.count ≤ most_frames) × (of_store.0 < most_stores) }
    ensures { result ≡ leb (ceiling_of pool.now of_store.0) (held_by residents.now pool.now.count of_store.0) }
{
    let ceiling = u16::from(pool.ceilings[usize::from(of_store)]);
    ceiling <= residents::held(residents, usize::from(pool.count), of_store)
}

// The frame that a load may use without a sweep, if there is one: an empty one, for a store below its ceiling.
fn usable_frame(pool: &Pool, residents: &Residents, at_ceiling: bool) -> Option<FrameIndex>
    requires { (pool.now.count ≤ most_frames) × (pool.now.hand.0 < pool.now.count) }
    ensures { Told pool.now.count (pick at_ceiling pool.now.count (empty_by residents.now pool.now.count pool.now.count pool.now.hand.0)) result }
{
    if at_ceiling {
        return None;
    }
    scan::first_empty(residents, pool.count, pool.hand)
}

// Does a sweep for a page of the store leave the frame with this record as it is, whatever is in it: a store at its ceiling sweeps its own pages only.
fn is_spared(rec: FrameRecord, of_store: StoreNumber, at_ceiling: bool) -> bool
    ensures { result ≡ (at_ceiling and not (is_of of_store.0 rec)) }
{
    at_ceiling && !(rec.used == 1 && rec.store == of_store)
}

// What a sweep for a page of the store sees of the frames.
fn sights(
    pool: &Pool,
    frames: &[u8],
    of_store: StoreNumber,
    at_ceiling: bool,
) -> [u8; FrameIndex::MOST]
    requires { (pool.now.count ≤ most_frames) × (length frames.now ≡ page_size * pool.now.count) × Few pool.now.records pool.now.count × (at_ceiling ≡ own_frames_alone pool.now of_store.0) }
    ensures { Sees (kind_for pool.now frames.now of_store.0) pool.now.records result pool.now.count }
{
    let mut sights = [0; FrameIndex::MOST];
    for f in 0..usize::from(pool.count) {
        let rec = pool.records[f];
        let resting = is_spared(rec, of_store, at_ceiling);
        sights[f] = scan::sight(rec, frames, FrameIndex(f as u8), pool.stores, resting);
    }
    sights
}

// The usages that a sweep left go to the records.
fn cool(pool: &mut Pool, sights: &[u8; FrameIndex::MOST])
    requires { (pool.old.count ≤ most_frames) × (length sights.now ≡ most_frames) }
    ensures { Cooling pool.old pool.new sights.now pool.old.count }
{
    for f in 0..usize::from(pool.count) {
        pool.records[f].usage = scan::usage_left(sights[f]);
    }
}

// Loads a page into a frame, whose record is put anew, and pins it there after so many looks.
fn load(
    pool: &mut Pool,
    frames: &mut [u8],
    store: &[u8],
    directory: &mut [u8],
    parent: FrameIndex,
    slot: usize,
    frame: FrameIndex,
    of_store: StoreNumber,
    page: PageNumber,
    looks: u16,
) -> Pinned
    requires { Fitting pool.old.pages frames.old store.now directory.old parent.0 slot frame.0 of_store.0 page.0 }
    ensures { out (fix_answer (Ok result)) (state pool.new frames.new store.now directory.new) ≡ loaded_out (state pool.old frames.old store.now directory.old) parent.0 slot frame.0 of_store.0 page.0 looks }
{
    let rec = moves::load_page(
        frames, store, directory, parent, slot, frame, of_store, page, pool.pages,
    );
    pool.records[usize::from(frame)] = rec;
    let handle = Handle {
        frame,
        store: of_store,
        page,
    };
    Pinned { handle, looks }
}

// Brings in a page that is not resident, for a slot of its parent's frame: rules 14, 15 and 27. What a sweep leaves goes to the pool once a frame is taken.
pub fn bring_in(
    pool: &mut Pool,
    frames: &mut [u8],
    store: &mut [u8],
    directory: &mut [u8],
    parent: FrameIndex,
    slot: usize,
    of_store: StoreNumber,
    page: PageNumber,
    residents: &Residents,
    seen: &mut Seen,
) -> Result<Pinned, Refusal>
    requires { Kept (state pool.old frames.old store.old directory.old) × Handed pool.old frames.old residents.now seen.old × (parent.0 < pool.old.count) × (slot < slot_count) × (of_store.0 < pool.old.stores) × (page.0 < pool.old.pages) }
    ensures { out (fix_answer result) (state pool.new frames.new store.new directory.new) ≡ miss_decided (state pool.old frames.old store.old directory.old) parent.0 slot of_store.0 page.0 }
{
    let n = usize::from(pool.pages);
    if !naming::is_loadable(store, n, of_store, page, seen) {
        return Err(Refusal::BadStoredPage);
    }
    let at_ceiling = is_at_ceiling(pool, residents, of_store);
    let empty = usable_frame(pool, residents, at_ceiling);
    if let Some(frame) = empty {
        let pinned = load(
            pool, frames, store, directory, parent, slot, frame, of_store, page, 0,
        );
        return Ok(pinned);
    }
    let mut sights = sights(pool, frames, of_store, at_ceiling);
    let walk = scan::sweep(&mut sights, pool.count, pool.hand);
    let Some(victim) = walk.frame else {
        if at_ceiling {
            return Err(Refusal::AtCeiling);
        }
        return Err(Refusal::NoFrame);
    };
    cool(pool, &sights);
    pool.hand = walk.hand;
    let evicted = pool.records[usize::from(victim)];
    moves::take_out(evicted, pool.pages, frames, store, directory, victim);
    let pinned = load(
        pool, frames, store, directory, parent, slot, victim, of_store, page, walk.looks,
    );
    Ok(pinned)
}
