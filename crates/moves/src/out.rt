// Writing out: the images of dirty pages to the store.
ghost use Rattle.std.specs.Prelude.{◌≡◌, true, false, MatchOption};
ghost use Rattle.page.specs.Figures.{slot_count};
ghost use Rattle.page.specs.Page.{page_of, put_page};
ghost use Rattle.page.specs.StorePlaces.{store_place};
ghost use Rattle.machine.specs.Machine.{is_dirty};
ghost use Rattle.machine.specs.Sweep.{childless};
ghost use Rattle.machine.specs.Moves.{image_to, written_out_by};
ghost use Rattle.residents.specs.Residents.{page_by};
ghost use Rattle.moves.specs.WriteOut.{Named, Placeable, Placed, Writable, StoredAsIs, WrittenAsIs};

use crate::image;
use machine::FrameRecord;
use page::{FrameIndex, PageNumber, StorePlace};
use residents::Residents;
use scan::look;

// The place that the page whose record this is has to be written to, if it is dirty.
fn dirty_place(rec: FrameRecord, pages: u16) -> Option<StorePlace>
    requires { Placeable pages rec.store.0 rec.page.0 }
    ensures { MatchOption result (is_dirty rec ≡ false) (λ place. (is_dirty rec ≡ true) × (place.0 ≡ store_place pages rec.store.0 rec.page.0)) }
{
    if rec.dirty != 1 {
        return None;
    }
    Some(StorePlace::of(rec.store, rec.page, pages))
}

// Copies the page in a frame to its place among the stores: its image, where no word of it is swizzled.
fn store_bytes(place: StorePlace, frames: &[u8], store: &mut [u8], frame: FrameIndex)
    requires { Placed place.0 frames.now store.old frame.0 × (childless frames.now frame.0 ≡ true) }
    ensures { StoredAsIs place.0 frames.now frame.0 store.old store.new }
{
    page::copy::to_store(store, place, frames, frame);
}

// Writes the image of the page in a frame to its place among the stores. The table gives each frame's page.
fn store_image(
    place: StorePlace,
    residents: &Residents,
    frames: &[u8],
    store: &mut [u8],
    frame: FrameIndex,
)
    requires { Placed place.0 frames.now store.old frame.0 × Named frames.now frame.0 }
    ensures { store.new ≡ put_page store.old place.0 (image_to (page_by residents.now) (page_of frames.now frame.0) slot_count) }
{
    if look::childless(frames, frame) {
        store_bytes(place, frames, store, frame);
        return;
    }
    let to = place.start();
    let from = frame.start();
    image::put_image(
        &mut store[to..to + PageNumber::SIZE],
        &frames[from..from + PageNumber::SIZE],
        residents,
    );
}

// Writes the image of the page in a frame to the store, if its record is dirty. The table gives each frame's page.
pub fn write_out(
    rec: FrameRecord,
    pages: u16,
    residents: &Residents,
    frames: &[u8],
    store: &mut [u8],
    frame: FrameIndex,
)
    requires { Writable pages rec frames.now store.old frame.0 }
    ensures { store.new ≡ written_out_by pages (page_by residents.now) rec frames.now store.old frame.0 }
{
    if let Some(place) = dirty_place(rec, pages) {
        store_image(place, residents, frames, store, frame);
    }
}

// The same for a page without a swizzled word, which needs no table, and no second look at its words.
pub fn write_bytes_out(
    rec: FrameRecord,
    pages: u16,
    frames: &[u8],
    store: &mut [u8],
    frame: FrameIndex,
)
    requires { Writable pages rec frames.now store.old frame.0 × (childless frames.now frame.0 ≡ true) }
    ensures { WrittenAsIs pages rec frames.now frame.0 store.old store.new }
{
    if let Some(place) = dirty_place(rec, pages) {
        store_bytes(place, frames, store, frame);
    }
}
