// A test of many numbers side by side.
ghost use Rattle.std.specs.Prelude.{◌≡◌, ℕ, Bool, ◌<◌};
ghost use Rattle.rules.specs.Tests.{some};
ghost use Rattle.seen.specs.Fold.{Tests};

// Does the test hold of one of the numbers below `count`. It is made of each, so that the compiler takes them side by side: `any` would leave at the first.
pub fn any_below<F: Fn(usize) -> bool>(count: usize, test: F) -> bool
    requires { (k : ℕ) → k < count → F.pre test k }
    ensures { (t : ℕ → Bool) → Tests (F.post test) count t → result ≡ some count t }
{
    let mut hit = false;
    for k in 0..count {
        // or-ed into the flag in place of this, which is shorter, it costs `mark_page` an eighth where a page names one page
        if test(k) {
            hit = true;
        }
    }
    hit
}
