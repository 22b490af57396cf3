// Rules 9 and 14: which pages name a page. The tables that rule 2 hands on tell of resident pages: which they are, and what they name.
#![tactic(auto)]

pub mod stored;

ghost use Rattle.std.specs.Prelude.{◌≡◌, ◌+◌, ◌*◌, ◌≤◌, ◌<◌, length};
ghost use Rattle.page.specs.Figures.{page_size, most_pages, most_stores};
ghost use Rattle.naming.specs.NamedByTables.{named_by, loadable_by};

use page::{PageNumber, StoreNumber, StorePlace};
use residents::Residents;
use seen::Seen;

// Is the page named by a word of any page of its store (rule 9), of n pages.
pub fn is_named(
    residents: &Residents,
    seen: &Seen,
    store: &[u8],
    n: usize,
    of_store: StoreNumber,
    page: PageNumber,
) -> bool
    requires { (n ≤ most_pages) × (of_store.0 < most_stores) × (page_size * (n * of_store.0 + n) ≤ length store.now) × (page.0 < most_pages) }
    ensures { result ≡ named_by residents.now seen.now store.now n of_store.0 page.0 }
{
    let q = usize::from(page);
    if seen.is_noted(of_store, q) {
        return true;
    }
    stored::in_store(store, residents, n, of_store, page.word())
}

// May the stored page come in (rule 14), of n pages in its store. The table is used up.
pub fn is_loadable(
    store: &[u8],
    n: usize,
    of_store: StoreNumber,
    page: PageNumber,
    seen: &mut Seen,
) -> bool
    requires { (n ≤ most_pages) × (of_store.0 < most_stores) × (page_size * (n * of_store.0 + n) ≤ length store.now) × (page.0 < n) }
    ensures { result ≡ loadable_by seen.old store.now n of_store.0 page.0 }
{
    let at = StorePlace::of(of_store, page, n as u16).start();
    if !seen::words::has_word(store, at) {
        return true;
    }
    seen.mark_page(of_store, store, at, n)
}
