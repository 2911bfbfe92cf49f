// The acts of the commands that reach words of a bank, Read and Write: their own checks, in order, behind those of state and password
// (document 01, "The commands, checks in order").
ghost use Rattle.std.specs.Prelude.{◌≡◌};
ghost use Rattle.tag.specs.Commands.{data_in, outside, names_crc, length_broken, read_act, write_act};

use crate::commands::Act;
use crate::errors::TagError;
use crate::locks::Standing;
use crate::regions::{may_read, may_write};
use frame::bytes::{fits, number_at};
use image::header::{View, bank_of};

#[tactic(auto, using(crate::proofs::Tests::tests), unfolding(crate::specs::Commands::outside))]
fn is_outside(v: View, bank: usize, pointer: usize, count: usize) -> bool
    ensures { result ≡ outside v bank pointer count }
{
    !fits(pointer, count, usize::from(bank_of(v, bank).words))
}

#[tactic(auto, using(crate::proofs::Tests::tests), unfolding(crate::specs::Commands::read_act, crate::specs::Commands::outside, frame::specs::Bytes::pick))]
pub(crate) fn read_act(
    v: View,
    s: Standing,
    bank: usize,
    pointer: usize,
    count: usize,
) -> Result<Act, TagError>
    ensures { result ≡ read_act v s bank pointer count }
{
    if is_outside(v, bank, pointer, count) {
        return Err(TagError::ReadOutside);
    }
    if !may_read(v, s, bank, pointer, count) {
        return Err(TagError::ReadLocked);
    }
    Ok(Act::Give {
        at: usize::from(bank_of(v, bank).offset) + 2 * pointer,
        length: 2 * count,
    })
}

// EPC word 0 is the tag's own.
#[tactic(auto, using(crate::proofs::Tests::tests), unfolding(crate::specs::Commands::names_crc))]
fn is_naming_crc(bank: usize, pointer: usize) -> bool
    ensures { result ≡ names_crc bank pointer }
{
    bank == 1 && pointer == 0
}

// The new PC stands among the data, which follow the first nine of the parameters.
#[tactic(auto, using(crate::proofs::Tests::tests), unfolding(crate::specs::Commands::length_broken))]
fn is_length_broken(v: View, bank: usize, pointer: usize, count: usize, parameters: &[u8]) -> bool
    ensures { result ≡ length_broken v bank pointer count (data_in parameters.now) }
{
    bank == 1
        && pointer <= 1
        && 1 - pointer < count
        && v.epc.words < number_at(parameters, 9 + 2 * (1 - pointer)) / 2048 + 2
}

#[tactic(auto, using(crate::proofs::Tests::tests), unfolding(crate::specs::Commands::write_act, crate::specs::Commands::outside, frame::specs::Bytes::pick))]
pub(crate) fn write_act(
    v: View,
    s: Standing,
    bank: usize,
    pointer: usize,
    count: usize,
    parameters: &[u8],
) -> Result<Act, TagError>
    ensures { result ≡ write_act v s bank pointer count (data_in parameters.now) }
{
    if is_outside(v, bank, pointer, count) {
        return Err(TagError::WriteOutside);
    }
    if !may_write(v, s, bank, pointer, count) {
        return Err(TagError::WriteLocked);
    }
    if is_naming_crc(bank, pointer) {
        return Err(TagError::WriteLocked);
    }
    if is_length_broken(v, bank, pointer, count, parameters) {
        return Err(TagError::WriteOutside);
    }
    Ok(Act::Store {
        at: usize::from(bank_of(v, bank).offset) + 2 * pointer,
    })
}
