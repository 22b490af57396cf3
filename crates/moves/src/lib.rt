// A page leaving its frame, coming into one, and settling. Frames, store and directory are changed here; the caller puts the record.
#![tactic(auto)]

mod image;
mod out;

ghost use Rattle.std.specs.Prelude.{◌≡◌, []};
ghost use Rattle.page.specs.StorePlaces.{store_place};
ghost use Rattle.machine.specs.Machine.{state, loaded_record};
ghost use Rattle.chains.specs.Chain.{bucket_of, entered};
ghost use Rattle.machine.proofs.Laws.Ready.{Ready};
ghost use Rattle.residents.specs.Residents.{Residents};
ghost use Rattle.moves.specs.MoveSteps.{SettledAs};
ghost use Rattle.moves.specs.InAndOut.{Removable, TakenOut, Fitting, brought_in};

use machine::{FrameRecord, Pool};
use page::{FrameIndex, PageNumber, StoreNumber, StorePlace};
use residents::Residents;

// Takes a page without swizzled words, whose record is `rec`, out of its frame: its bytes to the store if dirty, its number to its parent's word, and its entry out of the directory.
pub fn take_out(
    rec: FrameRecord,
    pages: u16,
    frames: &mut [u8],
    store: &mut [u8],
    directory: &mut [u8],
    frame: FrameIndex,
)
    requires { Removable pages rec frames.old store.old directory.old frame.0 }
    ensures { TakenOut pages rec frames.old store.old directory.old frame.0 frames.new store.new directory.new }
{
    out::write_bytes_out(rec, pages, frames, store, frame);
    let parent = rec.parent;
    let slot = usize::from(rec.slot);
    let old = page::slot::slot_word(frames, parent, slot);
    let page = rec.page;
    let word = page::word::renamed(old, page.word());
    page::slot::put_in_slot(frames, parent, slot, word);
    directory::take_out(directory, frame, page);
}

// Loads a page into a frame, for a slot of its parent's frame, enters it in the directory, and gives its record.
pub fn load_page(
    frames: &mut [u8],
    store: &[u8],
    directory: &mut [u8],
    parent: FrameIndex,
    slot: usize,
    frame: FrameIndex,
    of_store: StoreNumber,
    page: PageNumber,
    pages: u16,
) -> FrameRecord
    requires { Fitting pages frames.old store.now directory.old parent.0 slot frame.0 of_store.0 page.0 }
    ensures { (result ≡ loaded_record of_store.0 page.0 parent.0 slot) × (frames.new ≡ brought_in frames.old store.now parent.0 slot frame.0 (store_place pages of_store.0 page.0)) × (directory.new ≡ entered directory.old (bucket_of page.0) frame.0) }
{
    let old = page::slot::slot_word(frames, parent, slot);
    let place = StorePlace::of(of_store, page, pages);
    page::copy::to_frame(frames, frame, store, place);
    let word = page::word::renamed(old, frame.word());
    page::slot::put_in_slot(frames, parent, slot, word);
    directory::enter(directory, frame, page);
    records::loaded(of_store, page, parent, slot as u8)
}

// Writes the image of each dirty page to the store, and marks it clean. The table gives each frame's page.
pub fn settle_pages(pool: &mut Pool, residents: &Residents, frames: &[u8], store: &mut [u8])
    requires { Ready (state pool.old frames.now store.old []) × Residents pool.old.records residents.now }
    ensures { SettledAs pool.old frames.now store.old pool.new store.new }
{
    let pages = pool.pages;
    for f in 0..usize::from(pool.count) {
        let record = pool.records[f];
        out::write_out(record, pages, residents, frames, store, FrameIndex(f as u8));
        pool.records[f] = records::cleaned(record);
    }
}
