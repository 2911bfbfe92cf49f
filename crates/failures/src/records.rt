// The lent list of failures: a record is put at a place, and the first ones go while the rest move up. What the list is depends on the number held, which its
// holder keeps; see specs/Lists.antt.
ghost use Rattle.std.specs.Prelude.{ℕ, ◌+◌, ◌<◌, ◌≡◌, length, set};
ghost use Rattle.failures.specs.Lists.{may_remove, kept_of, moved_up};

use crate::record::Record;

// A place behind the room changes nothing.
pub fn add(records: &mut [Record], at: usize, item: Record)
    ensures { records.new ≡ set records.old at item }
{
    if at < records.len() {
        records[at] = item;
    }
}

// Whether the first n of `held` records may go: as many are held, and no more than have room.
pub fn may_acknowledge(room: usize, held: usize, n: usize) -> bool
    ensures { result ≡ may_remove room held n }
{
    n <= held && held <= room
}

// How many records are kept where the first n of `held` go; 0 where they may not.
pub fn kept(room: usize, held: usize, n: usize) -> usize
    ensures { result ≡ kept_of room held n }
{
    if may_acknowledge(room, held, n) {
        return held - n;
    }
    0
}

// The `left` items from place n on move to the start; what stands behind them is left as it was.
pub(crate) fn move_up<T: Copy>(items: &mut [T], n: usize, left: usize)
    requires { (k : ℕ) → k < left → k + n < length items.old }
    ensures { items.new ≡ moved_up items.old n left }
{
    for k in 0..left {
        items[k] = items[k + n];
    }
}

// The first n records go and the rest move up; what stands behind the rest is left as it was. Where they may not go none is kept, so that nothing moves.
pub fn remove(records: &mut [Record], held: usize, n: usize) -> usize
    ensures { (result ≡ kept_of (length records.old) held n)
        × (records.new ≡ moved_up records.old n (kept_of (length records.old) held n)) }
{
    let left = kept(records.len(), held, n);
    move_up(records, n, left);
    left
}

// The same for a list that a program holds in an array: it is lent to `add` and handed back.
pub fn add_in(records: [Record; 8], at: usize, item: Record) -> [Record; 8]
    ensures { result ≡ set records at item }
{
    let mut list = records;
    add(&mut list, at, item);
    list
}

pub fn remove_in(records: [Record; 8], held: usize, n: usize) -> [Record; 8]
    ensures { result ≡ moved_up records n (kept_of (length records) held n) }
{
    let mut list = records;
    remove(&mut list, held, n);
    list
}
