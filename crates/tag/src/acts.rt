// What a command comes to on a tag's image (document 01, "The commands, checks in order").
ghost use Rattle.std.specs.Prelude.{◌≡◌};
ghost use Rattle.tag.specs.Commands.{verdict, act_of};
ghost use Rattle.tag.specs.Locks.{standing, kill_standing};

use crate::admission::{admit, admit_present};
use crate::commands::{Act, Parsed};
use crate::errors::{PlainError, Refusal};
use crate::lock_acts::{kill_act, lock_act};
use crate::locks::{KillStanding, Standing};
use crate::word_acts::{read_act, write_act};
use crate::{locks, parsing};
use frame::bytes::{double_at, number_at};
use image::header::view_of;

// The access password stands four bytes behind the Reserved offset, which bytes 6 and 7 hold.
#[tactic(auto, unfolding(crate::specs::Locks::standing))]
fn standing_to(image: &[u8], given: usize) -> Standing
    ensures { result ≡ standing image.now given }
{
    locks::standing_of(
        double_at(image, usize::from(number_at(image, 6)) + 4) as usize,
        given,
    )
}

// The kill password stands at the Reserved offset.
#[tactic(auto, unfolding(crate::specs::Locks::kill_standing))]
fn kill_standing_to(image: &[u8], given: usize) -> KillStanding
    ensures { result ≡ kill_standing image.now given }
{
    locks::kill_standing_of(
        double_at(image, usize::from(number_at(image, 6))) as usize,
        given,
    )
}

// What a parsed command comes to; of its parameters only a Write's data is looked at again.
#[tactic(auto, unfolding(crate::specs::Commands::verdict, frame::specs::Bytes::pick))]
fn verdict(image: &[u8], p: &[u8], command: Parsed) -> Result<Act, Refusal>
    ensures { result ≡ verdict image.now p.now command }
{
    let v = view_of(image);
    match command {
        Parsed::Malformed => Err(Refusal::Plain(PlainError::NoCommand)),
        Parsed::Inventory => {
            admit_present(v, PlainError::NotInventoried)?;
            Ok(Act::Notify)
        }
        Parsed::Read {
            password,
            bank,
            pointer,
            count,
        } => {
            let s = standing_to(image, password);
            admit(v, s, PlainError::NotRead)?;
            Ok(read_act(v, s, bank, pointer, count)?)
        }
        Parsed::Write {
            password,
            bank,
            pointer,
            count,
        } => {
            let s = standing_to(image, password);
            admit(v, s, PlainError::NotWritten)?;
            Ok(write_act(v, s, bank, pointer, count, p)?)
        }
        Parsed::Lock {
            password,
            mask,
            action,
        } => {
            let s = standing_to(image, password);
            admit(v, s, PlainError::NotLocked)?;
            lock_act(v, s, mask, action)
        }
        Parsed::Kill { password } => {
            admit_present(v, PlainError::NotKilled)?;
            kill_act(kill_standing_to(image, password))
        }
    }
}

// For any image, also a bad one, and any parameters.
#[tactic(auto, unfolding(crate::specs::Commands::act_of))]
pub fn act_of(image: &[u8], code: u8, parameters: &[u8]) -> Result<Act, Refusal>
    ensures { result ≡ act_of image.now code parameters.now }
{
    verdict(image, parameters, parsing::parse_command(code, parameters))
}
