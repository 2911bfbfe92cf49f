// What a Lock makes of the lock pairs (document 01, "The commands", 0x82, with request P3).
ghost use Rattle.std.specs.Prelude.{◌≡◌, ◌≤◌, max};
ghost use Rattle.tag.specs.Locks.{bits_of, new_bit, masked_pair, new_pair, new_pairs, refuses_pair, refuses_lock};

use crate::locks::Pairs;

#[tactic(auto, unfolding(crate::specs::Locks::bits_of))]
pub(crate) fn bits_of(p: Pairs) -> usize
    ensures { result ≡ bits_of p }
{
    usize::from(p.kill) * 256
        + usize::from(p.access) * 64
        + usize::from(p.epc) * 16
        + usize::from(p.tid) * 4
        + usize::from(p.user)
}

#[tactic(auto, using(crate::proofs::Tests::tests), unfolding(crate::specs::Locks::new_bit, frame::specs::Bytes::pick))]
fn new_bit(mask: u8, action: u8, old: u8) -> u8
    ensures value { result ≡ new_bit mask action old }
    ensures upper_bound { result ≤ max action old }
{
    if mask == 1 { action } else { old }
}

#[tactic(auto, unfolding(crate::specs::Locks::masked_pair))]
fn masked_pair(mask: u8, action: u8, old: u8) -> u8
    ensures { result ≡ masked_pair mask action old }
{
    new_bit(mask / 2, action / 2, old / 2) * 2 + new_bit(mask % 2, action % 2, old % 2)
}

// Where no pair refuses, one whose permalock bit is set stays as it is, whatever the Lock asks of it.
#[tactic(auto, using(crate::proofs::Tests::tests), unfolding(crate::specs::Locks::new_pair, crate::specs::Locks::permalocked, frame::specs::Bytes::pick))]
fn new_pair(mask: u8, action: u8, old: u8) -> u8
    ensures { result ≡ new_pair mask action old }
{
    if old % 2 == 1 {
        old
    } else {
        masked_pair(mask, action, old)
    }
}

#[tactic(auto, unfolding(crate::specs::Locks::new_pairs))]
pub(crate) fn new_pairs(mask: Pairs, action: Pairs, old: Pairs) -> Pairs
    ensures { result ≡ new_pairs mask action old }
{
    Pairs {
        kill: new_pair(mask.kill, action.kill, old.kill),
        access: new_pair(mask.access, action.access, old.access),
        epc: new_pair(mask.epc, action.epc, old.epc),
        tid: new_pair(mask.tid, action.tid, old.tid),
        user: new_pair(mask.user, action.user, old.user),
    }
}

// A pair whose permalock bit is set refuses to have that bit cleared, and its password bit changed alone.
#[tactic(auto, using(crate::proofs::Tests::tests), unfolding(crate::specs::Locks::refuses_pair, crate::specs::Locks::permalocked, frame::specs::Bytes::pick))]
fn refuses_pair(mask: u8, action: u8, old: u8) -> bool
    ensures { result ≡ refuses_pair mask action old }
{
    if old % 2 == 0 {
        false
    } else if mask % 2 == 1 {
        action % 2 == 0
    } else {
        mask / 2 == 1 && action / 2 != old / 2
    }
}

#[tactic(auto, using(crate::proofs::Tests::tests), unfolding(crate::specs::Locks::refuses_lock))]
pub(crate) fn refuses_lock(mask: Pairs, action: Pairs, old: Pairs) -> bool
    ensures { result ≡ refuses_lock mask action old }
{
    refuses_pair(mask.kill, action.kill, old.kill)
        || refuses_pair(mask.access, action.access, old.access)
        || refuses_pair(mask.epc, action.epc, old.epc)
        || refuses_pair(mask.tid, action.tid, old.tid)
        || refuses_pair(mask.user, action.user, old.user)
}
