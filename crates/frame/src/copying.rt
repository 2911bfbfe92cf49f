// Copying bytes from one slice into another.
ghost use Rattle.std.specs.Prelude.{◌≡◌};
ghost use Rattle.frame.specs.Copying.{copied};

use crate::bytes::reaches;

// The n bytes from `start` of one slice go to `at` of the other. Where either has no n bytes there, nothing is
// copied. Byte by byte, since `copy_from_slice` calls `memmove`, and the library for C calls nothing.
#[tactic(auto, using(crate::proofs::Copies::reaches_there))]
pub fn copy(from: &[u8], start: usize, n: usize, to: &mut [u8], at: usize)
    ensures { to.new ≡ copied from.now start n to.old at }
{
    if reaches(from, start, n) && reaches(to, at, n) {
        for i in 0..n {
            to[at + i] = from[start + i];
        }
    }
}
