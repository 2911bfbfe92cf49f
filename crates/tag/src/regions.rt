// Which regions of the memory let a command through (document 01, "Lock bits").
ghost use Rattle.std.specs.Prelude.{◌≡◌, not, ◌||◌, ◌≤◌};
ghost use Rattle.tag.specs.Locks.{allows, touches, may_touch_passwords, may_read, may_write};

use crate::locks::{Standing, is_secured, pairs_of};
use image::header::View;

// The row of the table for a pair.
#[tactic(auto, using(crate::proofs::Tests::tests), unfolding(crate::specs::Locks::allows, frame::specs::Bytes::pick))]
fn allows_at(pair: u8, s: Standing) -> bool
    ensures { result ≡ allows pair s }
{
    match pair {
        0 | 1 => true,
        2 => is_secured(s),
        _ => false,
    }
}

// Tested so that no sum can wrap: where the first test fails, `pointer` is small.
#[tactic(auto, using(crate::proofs::Tests::tests), unfolding(crate::specs::Locks::touches))]
fn touches_from(pointer: usize, count: usize, first: usize) -> bool
    requires { first ≤ 2 }
    ensures { result ≡ touches pointer count first }
{
    pointer < first + 2 && (first < pointer || first - pointer < count)
}

// One password region, of which `first` is the first word, lets the command through or is not touched.
fn may_touch(pair: u8, s: Standing, pointer: usize, count: usize, first: usize) -> bool
    requires { first ≤ 2 }
    ensures { result ≡ (not (touches pointer count first) || allows pair s) }
{
    !touches_from(pointer, count, first) || allows_at(pair, s)
}

#[tactic(auto, using(crate::proofs::Tests::tests), unfolding(crate::specs::Locks::may_touch_passwords))]
fn may_touch_passwords(v: View, s: Standing, pointer: usize, count: usize) -> bool
    ensures { result ≡ may_touch_passwords v s pointer count }
{
    let p = pairs_of(usize::from(v.locks));
    may_touch(p.kill, s, pointer, count, 0) && may_touch(p.access, s, pointer, count, 2)
}

#[tactic(auto, using(crate::proofs::Tests::tests), unfolding(crate::specs::Locks::may_read, frame::specs::Bytes::pick))]
pub(crate) fn may_read(v: View, s: Standing, bank: usize, pointer: usize, count: usize) -> bool
    ensures { result ≡ may_read v s bank pointer count }
{
    bank != 0 || may_touch_passwords(v, s, pointer, count)
}

#[tactic(auto, using(crate::proofs::Tests::tests), unfolding(crate::specs::Locks::may_write, frame::specs::Bytes::pick))]
pub(crate) fn may_write(v: View, s: Standing, bank: usize, pointer: usize, count: usize) -> bool
    ensures { result ≡ may_write v s bank pointer count }
{
    let p = pairs_of(usize::from(v.locks));
    match bank {
        0 => may_touch_passwords(v, s, pointer, count),
        1 => allows_at(p.epc, s),
        2 => allows_at(p.tid, s),
        _ => allows_at(p.user, s),
    }
}
