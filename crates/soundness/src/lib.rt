// Rule 16: are the stores sound. Their words are looked at a page at a time, one store after the other, with one table of the numbers seen.
#![tactic(auto)]

ghost use Rattle.std.specs.Prelude.{◌≡◌, false, ◌+◌, ◌*◌, ◌≤◌, ◌<◌, length};
ghost use Rattle.page.specs.Figures.{page_size, most_pages, most_stores};
ghost use Rattle.machine.specs.Soundness.{sound_store, sound};
ghost use Rattle.seen.specs.Seen.{Tells, WithinStore};

use page::{PageNumber, StoreNumber, StorePlace};
use seen::Seen;

// Is a store of n pages sound. Of its numbers none is noted before.
fn is_store_sound(store: &[u8], n: u16, of_store: StoreNumber, seen: &mut Seen) -> bool
    requires { (n ≤ most_pages) × (of_store.0 < most_stores) × (page_size * (n * of_store.0 + n) ≤ length store.now) × Tells of_store.0 seen.old (λ _. false) }
    ensures { (result ≡ sound_store store.now n of_store.0) × WithinStore of_store.0 seen.old seen.new }
{
    for p in 0..n {
        let at = StorePlace::of(of_store, PageNumber(p), n).start();
        if seen::words::has_word(store, at) {
            if !seen.mark_page(of_store, store, at, usize::from(n)) {
                return false;
            }
        }
    }
    true
}

// Is each of the stores sound, of n pages each.
pub fn is_sound(store: &[u8], n: u16, stores: u8) -> bool
    requires { (n ≤ most_pages) × (stores ≤ most_stores) × (length store.now ≡ page_size * (n * stores)) }
    ensures { result ≡ sound store.now n stores }
{
    let mut seen = Seen::new();
    for t in 0..stores {
        if !is_store_sound(store, n, StoreNumber(t), &mut seen) {
            return false;
        }
    }
    true
}
