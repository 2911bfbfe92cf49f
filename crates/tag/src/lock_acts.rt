// The acts of a Lock and of a Kill: their own checks, in order, behind those of state and password (document 01, "The commands, checks
// in order").
ghost use Rattle.std.specs.Prelude.{◌≡◌, not, ◌&&◌, eqb};
ghost use Rattle.tag.specs.Commands.{lock_act, kill_act};

use crate::commands::Act;
use crate::errors::{PlainError, Refusal, TagError};
use crate::locks::{KillStanding, Pairs, Standing, is_secured, pairs_of};
use crate::new_locks::{bits_of, new_pairs, refuses_lock};
use image::header::View;

// The mask touches User, and there is none.
fn misses_user(v: View, mask: Pairs) -> bool
    ensures { result ≡ (not (eqb mask.user 0) && eqb v.user.words 0) }
{
    mask.user != 0 && v.user.words == 0
}

#[tactic(auto, using(crate::proofs::Tests::tests), unfolding(crate::specs::Commands::lock_act, frame::specs::Bytes::pick))]
pub(crate) fn lock_act(v: View, s: Standing, mask: usize, action: usize) -> Result<Act, Refusal>
    ensures { result ≡ lock_act v s mask action }
{
    if !is_secured(s) {
        return Err(PlainError::NotLocked.into());
    }
    let masked = pairs_of(mask);
    if misses_user(v, masked) {
        return Err(TagError::NoUserWords.into());
    }
    let asked = pairs_of(action);
    let old = pairs_of(usize::from(v.locks));
    if refuses_lock(masked, asked, old) {
        return Err(TagError::Permalocked.into());
    }
    Ok(Act::Set {
        code: 0x82,
        at: 20,
        count: 2,
        value: bits_of(new_pairs(masked, asked, old)),
    })
}

#[tactic(auto, unfolding(crate::specs::Commands::kill_act))]
pub(crate) fn kill_act(k: KillStanding) -> Result<Act, Refusal>
    ensures { result ≡ kill_act k }
{
    match k {
        KillStanding::NoneStored => Err(TagError::NoKillPassword.into()),
        KillStanding::Different => Err(PlainError::NotKilled.into()),
        KillStanding::Equal => Ok(Act::Set {
            code: 0x65,
            at: 22,
            count: 1,
            value: 1,
        }),
    }
}
