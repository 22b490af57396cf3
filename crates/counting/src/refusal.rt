// The rules of add, in checking order.
ghost use Rattle.std.specs.Prelude.{◌≡◌, length};
ghost use Rattle.rules.specs.Tests.{first_broken};
ghost use Rattle.depths.specs.Tallying.{sizes_fit, tally_fits, pages_fit, add_rules, depth_count};

use crate::sums;
use depths::Tally;

// Rule 1.
fn sizes_fit(tally: Tally, counts: &[u32], pages: &[u16]) -> bool
    ensures { result ≡ sizes_fit tally counts.now pages.now }
{
    if counts.len() != Tally::DEPTHS {
        return false;
    }
    if pages.len() < 1 {
        return false;
    }
    if Tally::MOST_REFERENCES < pages.len() {
        return false;
    }
    tally.recordings < Tally::MOST_RECORDINGS
}

// Rule 2.
fn tally_fits(tally: Tally, counts: &[u32]) -> bool
    requires { length counts.now ≡ depth_count }
    ensures { result ≡ tally_fits tally counts.now }
{
    if Tally::MOST_REFERENCES as u32 * u32::from(tally.recordings) < tally.references {
        return false;
    }
    sums::first(counts, Tally::DEPTHS) <= u64::from(tally.references)
}

// Rule 6, by the largest page: with no way out of the loop, it takes several pages at a time.
fn pages_fit(pages: &[u16]) -> bool
    ensures { result ≡ pages_fit pages.now }
{
    let largest = pages
        .iter()
        .fold(0, |largest: u16, page| largest.max(*page));
    largest <= Tally::LAST_PAGE
}

// The number of the first broken rule, 0 for none.
pub fn first_broken(tally: Tally, counts: &[u32], pages: &[u16]) -> u8
    ensures { result ≡ first_broken (add_rules tally counts.now pages.now) }
{
    if !sizes_fit(tally, counts, pages) {
        return 1;
    }
    if !tally_fits(tally, counts) {
        return 2;
    }
    if !pages_fit(pages) {
        return 6;
    }
    0
}
