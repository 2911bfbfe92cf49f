// The list of failures as C lends it: three numbers for each record, the cursor, the code and the error byte. What is left over behind the last three is not touched.
ghost use Rattle.std.specs.Prelude.{◌*◌, ◌≡◌};
ghost use Rattle.failures.specs.Lists.{kept_of, moved_up, room_in, numbers_with};

use crate::record::Record;
use crate::records::{kept, move_up};

// A place behind the room changes nothing.
pub fn add_numbers(numbers: &mut [u64], at: usize, item: Record)
    ensures { numbers.new ≡ numbers_with numbers.old at item }
{
    if at < numbers.len() / 3 {
        numbers[3 * at] = item.cursor as u64;
        numbers[3 * at + 1] = u64::from(item.code);
        numbers[3 * at + 2] = u64::from(item.error);
    }
}

// The first n records go and the rest move up, number by number. Where they may not go none is kept, so that nothing moves.
pub fn remove_numbers(numbers: &mut [u64], held: usize, n: usize) -> usize
    ensures { (result ≡ kept_of (room_in numbers.old) held n)
        × (numbers.new ≡ moved_up numbers.old (3 * n) (3 * kept_of (room_in numbers.old) held n)) }
{
    let left = kept(numbers.len() / 3, held, n);
    if 0 < left {
        move_up(numbers, 3 * n, 3 * left);
    }
    left
}
