// What a bench carries from call to call by value: it goes whole into a call and comes back whole.
ghost use Rattle.std.specs.Prelude.{◌≡◌};
ghost use Rattle.reader.specs.Readers.{fresh_reader, fresh_bench};

use crate::tally::Tally;

// The reader's own state.
#[derive(Clone, Copy)]
pub struct Reader {
    pub cursor: usize,
    pub tally: Tally,
}

impl Reader {
    // At the start of the input, with nothing counted.
    pub fn fresh() -> Self
        ensures { result ≡ fresh_reader }
    {
        Self {
            cursor: 0,
            tally: Tally::fresh(),
        }
    }
}

// The reader, the number of the first tag that may still be handed out, 16 for none, and how many of the bytes that are lent for a selection are one.
#[derive(Clone, Copy)]
pub struct BenchState {
    pub reader: Reader,
    pub next: usize,
    pub selected: usize,
}

impl BenchState {
    // Before the first call: none is to hand out, and every tag is selected.
    pub fn fresh() -> Self
        ensures { result ≡ fresh_bench }
    {
        Self {
            reader: Reader::fresh(),
            next: 16,
            selected: 0,
        }
    }
}
