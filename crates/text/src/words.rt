// Words that go by a number.
ghost use Rattle.std.specs.Prelude.{◌≡◌, eqb};
ghost use Rattle.frame.specs.Bytes.{pick};

// The word for one, or that for any other number.
pub fn word_for<'a>(n: u64, one: &'a [u8], more: &'a [u8]) -> &'a [u8]
    ensures { result.now ≡ pick (eqb n 1) one.now more.now }
{
    if n == 1 { one } else { more }
}
