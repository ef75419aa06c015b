// From a list to the rows that it lies in.
ghost use Rattle.std.specs.Prelude.{◌≡◌, Bool, ℕ, ◌<◌};
ghost use Rattle.kernels.specs.Rows.{statements};
ghost use Rattle.kernels.specs.Refusals.{meets_upwards};

use crate::rows::{Statement, owner_of};

// Upwards from list b: is a row met that passes a test?
pub(crate) fn meets<F: Fn(usize) -> bool>(s: &[u32], b: u32, test: F) -> bool
    requires { (j : ℕ) → j < statements s.now → F.pre test j }
    ensures { (p : ℕ → Bool) → ((j : ℕ) (r : Bool) → j < statements s.now → F.post test j r → r ≡ p j)
        → result ≡ meets_upwards s.now p (statements s.now) b }
{
    let mut list = b;
    for _ in 0..s.len() / 5 {
        let Some(j) = owner_of(s, list) else {
            return false;
        };
        if test(j) {
            return true;
        }
        list = Statement::at(s, j).list;
    }
    false
}
