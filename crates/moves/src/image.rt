// The image of a page: its bytes with each swizzled word replaced by the number of the page in that frame, its mark kept.
ghost use Rattle.std.specs.Prelude.{◌≡◌, length, ◌<◌};
ghost use Rattle.page.specs.Figures.{page_size, slot_count, most_frames};
ghost use Rattle.page.specs.Word.{name_of, renamed, frame_word};
ghost use Rattle.machine.specs.Moves.{imaged, image_to};
ghost use Rattle.residents.specs.Residents.{page_by};
ghost use Rattle.moves.specs.WriteOut.{Named};

use page::PageNumber;
use residents::Residents;

// The word that names the page by its number, in place of the word w.
fn by_number(w: u32, page: PageNumber) -> u32
    ensures { result ≡ renamed w page.0 }
{
    page::word::renamed(w, page.word())
}

// A word in the image. One that isn't swizzled stays as it stands, and its mark isn't looked for.
fn imaged_word(w: u32, residents: &Residents) -> u32
    requires { name_of w < frame_word most_frames }
    ensures { result ≡ imaged (page_by residents.now) w }
{
    if page::word::is_number(w) {
        return w;
    }
    let frame = page::word::frame_in(page::word::name_of(w));
    by_number(w, residents::page_of(residents[frame]))
}

// Makes `dst` the image of the page `src`.
pub fn put_image(dst: &mut [u8], src: &[u8], residents: &Residents)
    requires { (length dst.old ≡ page_size) × (length src.now ≡ page_size) × Named src.now 0 }
    ensures { dst.new ≡ image_to (page_by residents.now) src.now slot_count }
{
    page::copy::copy_into(dst, src);
    for k in 0..PageNumber::SLOTS {
        let w = page::word::word_at(src, page::word::SIZE * k);
        page::word::put_word(dst, page::word::SIZE * k, imaged_word(w, residents));
    }
}
