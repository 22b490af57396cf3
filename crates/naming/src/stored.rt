// A word looked for in a store's pages, whole pages at a time; the table is asked only of a page that has it.
ghost use Rattle.std.specs.Prelude.{◌≡◌, ◌+◌, ◌*◌, ◌≤◌, ◌<◌, length};
ghost use Rattle.page.specs.Figures.{page_size, most_pages, most_stores};
ghost use Rattle.naming.specs.Stored.{in_store};

use page::{PageNumber, StoreNumber, StorePlace};
use residents::Residents;

// Is w a word in one of the n pages of a store that are in no frame.
pub fn in_store(
    store: &[u8],
    residents: &Residents,
    n: usize,
    of_store: StoreNumber,
    w: u32,
) -> bool
    requires { (n ≤ most_pages) × (of_store.0 < most_stores) × (page_size * (n * of_store.0 + n) ≤ length store.now) }
    ensures { result ≡ in_store residents.now store.now n of_store.0 n w }
{
    for p in 0..n {
        let page = PageNumber(p as u16);
        let at = StorePlace::of(of_store, page, n as u16).start();
        if seen::words::has(store, at, w) {
            if !residents::is_resident(residents, of_store, page) {
                return true;
            }
        }
    }
    false
}
