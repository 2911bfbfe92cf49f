// The items of a run, as they come: an error answer is one, and so are dropped bytes with no command between them.
ghost use Rattle.std.specs.Prelude.{◌≡◌};
ghost use Rattle.sheet.specs.Items.{no_items, failing, joins, one_more, items_after, closes};

use frame::bytes::byte_at;
use frame::finding::Reason;
use frame::layout;
use reader::outcome::Outcome;
use reader::tally::Tally;
use rows::items::Item;

// How many items there are, and the last of them: it may still grow, and is told when the next one comes.
#[derive(Clone, Copy)]
pub struct Items {
    pub count: usize,
    pub last: Item,
}

// What a call means for the items.
#[derive(Clone, Copy)]
pub enum Failing {
    // It is no failure.
    Passed,
    // An error answer with this byte.
    Error(u8),
    // A byte dropped, for this reason.
    Drop(Reason),
}

impl Items {
    pub fn none() -> Self
        ensures { result ≡ no_items }
    {
        Self {
            count: 0,
            last: Item {
                first: 0,
                last: 0,
                error: 0,
                drops: Tally::fresh(),
            },
        }
    }
}

// Of a call that ended so, with its answer at the start of the output.
pub fn failing_of(output: &[u8], outcome: Outcome) -> Failing
    ensures { result ≡ failing output.now outcome }
{
    match outcome {
        Outcome::Answered => {
            if byte_at(output, layout::CODE) != 0xff {
                return Failing::Passed;
            }
            Failing::Error(byte_at(output, layout::PARAMETERS))
        }
        Outcome::Dropped(reason) => Failing::Drop(reason),
        Outcome::AtEnd
        | Outcome::Incomplete
        | Outcome::PastEnd
        | Outcome::BadImage
        | Outcome::ShortOutput
        | Outcome::FullTally
        | Outcome::FullList => Failing::Passed,
    }
}

// A byte dropped at `cursor` belongs to the last item: that one is of drops too, and ends with the byte before.
fn is_joined(items: Items, cursor: usize) -> bool
    ensures { result ≡ joins items cursor }
{
    let last = items.last;
    items.count != 0 && last.error == 0 && cursor != 0 && last.last == cursor - 1
}

// One more; at the most that the number can hold it stays, so that every function is total. No run comes to that.
fn one_more(n: usize) -> usize
    ensures { result ≡ one_more n }
{
    n.saturating_add(1)
}

// The items behind a call at `cursor`.
pub fn items_after(items: Items, cursor: usize, failing: Failing) -> Items
    ensures { result ≡ items_after items cursor failing }
{
    let last = items.last;
    let drops = last.drops;
    match failing {
        Failing::Passed => items,
        Failing::Error(error) => Items {
            count: one_more(items.count),
            last: Item {
                first: cursor,
                last: cursor,
                error,
                drops: Tally::fresh(),
            },
        },
        Failing::Drop(reason) => {
            if is_joined(items, cursor) {
                return Items {
                    count: items.count,
                    last: Item {
                        first: last.first,
                        last: cursor,
                        error: 0,
                        drops: drops.with_dropped(reason),
                    },
                };
            }
            Items {
                count: one_more(items.count),
                last: Item {
                    first: cursor,
                    last: cursor,
                    error: 0,
                    drops: Tally::fresh().with_dropped(reason),
                },
            }
        }
    }
}

// Whether the last item is whole: the call begins another.
pub fn closes(items: Items, cursor: usize, failing: Failing) -> bool
    ensures { result ≡ closes items cursor failing }
{
    match failing {
        Failing::Passed => false,
        Failing::Error(_) => true,
        Failing::Drop(_) => !is_joined(items, cursor),
    }
}
