// Bytes copied from one slice into another, and pages between the frames and the store.
ghost use Rattle.std.specs.Prelude.{◌≡◌, ◌+◌, ◌*◌, ◌≤◌, length};
ghost use Rattle.page.specs.Figures.{page_size};
ghost use Rattle.page.specs.Page.{page_of, put_page};
ghost use Rattle.page.specs.Octets.{Octets};

use crate::{FrameIndex, PageIndex, PageNumber, StorePlace};

// The bytes of `src` over those of `dst`, of which there are as many. Each of them is below 256, which a caller may need of a list.
pub fn copy_into(dst: &mut [u8], src: &[u8])
    requires { length src.now ≡ length dst.old }
    ensures { (dst.new ≡ src.now) × Octets src.now }
{
    // As a loop it becomes `memcpy`, which the archive asks of the host anyway; `copy_from_slice` becomes `memmove`.
    for (i, byte) in src.iter().enumerate() {
        dst[i] = *byte;
    }
}

// The page at `from` of one buffer over the page at `to` of another.
pub fn copy_page<D: PageIndex, S: PageIndex>(dst: &mut [u8], to: D, src: &[u8], from: S)
    requires { (page_size * D.index to + page_size ≤ length dst.old) × (page_size * S.index from + page_size ≤ length src.now) }
    ensures { (dst.new ≡ put_page dst.old (D.index to) (page_of src.now (S.index from))) × Octets (page_of src.now (S.index from)) }
{
    let start = to.start();
    let first = from.start();
    copy_into(
        &mut dst[start..start + PageNumber::SIZE],
        &src[first..first + PageNumber::SIZE],
    );
}

// A stored page over a frame. It stays beside `copy_page` for its callers, and for residency's edit that names it.
pub fn to_frame(frames: &mut [u8], frame: FrameIndex, store: &[u8], place: StorePlace)
    requires { (page_size * frame.0 + page_size ≤ length frames.old) × (page_size * place.0 + page_size ≤ length store.now) }
    ensures { (frames.new ≡ put_page frames.old frame.0 (page_of store.now place.0)) × Octets (page_of store.now place.0) }
{
    copy_page(frames, frame, store, place);
}

// A frame over a stored page, beside `copy_page` as well.
pub fn to_store(store: &mut [u8], place: StorePlace, frames: &[u8], frame: FrameIndex)
    requires { (page_size * place.0 + page_size ≤ length store.old) × (page_size * frame.0 + page_size ≤ length frames.now) }
    ensures { (store.new ≡ put_page store.old place.0 (page_of frames.now frame.0)) × Octets (page_of frames.now frame.0) }
{
    copy_page(store, place, frames, frame);
}
