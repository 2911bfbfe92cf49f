// The check of a frame (document 01, "The frame").
ghost use Rattle.std.specs.Prelude.{◌≡◌};
ghost use Rattle.frame.specs.Frames.{check_of};

// The sum of the bytes modulo 256: the u8 wraps on purpose.
pub fn check(bytes: &[u8]) -> u8
    ensures { result ≡ check_of bytes.now }
{
    let mut total: u8 = 0;
    for b in bytes {
        total = total.wrapping_add(*b);
    }
    total
}
