// A test of each number below a bound, for any test: the loop of the tests of rows, records and pages.
ghost use Rattle.std.specs.Prelude.{◌≡◌, ℕ, Bool, ◌<◌};
ghost use Rattle.facts.specs.Facts.{each};

use loops::both;

// Whether each number below n passes. One flag is carried to the end, with no way out early, so that a loop over words vectorises.
pub fn each<F: Fn(usize) -> bool>(n: usize, holds: F) -> bool
    requires { (i : ℕ) → i < n → F.pre holds i }
    ensures { (p : ℕ → Bool) → ((i : ℕ) (b : Bool) → i < n → F.post holds i b → b ≡ p i) → result ≡ each n p }
{
    let mut ok = true;
    for i in 0..n {
        ok = both(ok, holds(i));
    }
    ok
}
