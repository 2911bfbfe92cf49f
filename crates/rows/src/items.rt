// One item of the sheet: an error answer, or dropped bytes that follow one another.
ghost use Rattle.std.specs.Prelude.{◌≡◌};

use reader::tally::Tally;

// Where its first and its last byte stand, the byte of the error answer, 0 for drops, and how many bytes were dropped for each reason.
#[derive(Clone, Copy)]
pub struct Item {
    pub first: usize,
    pub last: usize,
    pub error: u8,
    pub drops: Tally,
}
