// A command from its code and parameters alone: here all plain 17 answers fall (document 01, "The commands, checks in order").
ghost use Rattle.std.specs.Prelude.{◌≡◌};
ghost use Rattle.tag.specs.Commands.{bank_in, ld_in, aim_right, parse_inventory, parse_read, parse_write, parse_lock, parse_kill, parse};

use crate::commands::Parsed;
use frame::bytes::{byte_at, double_at, number_at};

#[tactic(auto, unfolding(crate::specs::Commands::bank_in))]
fn bank_number(p: &[u8]) -> u8
    ensures { result ≡ bank_in p.now }
{
    byte_at(p, 4)
}

#[tactic(auto, unfolding(crate::specs::Commands::ld_in, crate::specs::Commands::bank_in))]
fn ld_in(p: &[u8]) -> usize
    ensures { result ≡ ld_in p.now }
{
    usize::from(bank_number(p)) * 65536 + usize::from(number_at(p, 5))
}

// Bank and count of a Read or a Write are in their ranges.
#[tactic(auto, using(crate::proofs::Tests::tests), unfolding(crate::specs::Commands::aim_right, crate::specs::Commands::count_in))]
fn aims_right(p: &[u8]) -> bool
    ensures { result ≡ aim_right p.now }
{
    let count = number_at(p, 7);
    bank_number(p) <= 3 && 1 <= count && count <= 32
}

#[tactic(auto, using(crate::proofs::Tests::tests), unfolding(crate::specs::Commands::parse_inventory, frame::specs::Bytes::pick))]
fn parse_inventory(p: &[u8]) -> Parsed
    ensures { result ≡ parse_inventory p.now }
{
    if p.is_empty() {
        Parsed::Inventory
    } else {
        Parsed::Malformed
    }
}

#[tactic(auto, using(crate::proofs::Tests::tests), unfolding(crate::specs::Commands::parse_read, frame::specs::Bytes::pick))]
fn parse_read(p: &[u8]) -> Parsed
    ensures { result ≡ parse_read p.now }
{
    if p.len() != 9 || !aims_right(p) {
        return Parsed::Malformed;
    }
    Parsed::Read {
        password: double_at(p, 0) as usize,
        bank: usize::from(bank_number(p)),
        pointer: usize::from(number_at(p, 5)),
        count: usize::from(number_at(p, 7)),
    }
}

#[tactic(auto, using(crate::proofs::Tests::tests), unfolding(crate::specs::Commands::parse_write, frame::specs::Bytes::pick))]
fn parse_write(p: &[u8]) -> Parsed
    ensures { result ≡ parse_write p.now }
{
    let count = usize::from(number_at(p, 7));
    if p.len() != 9 + 2 * count || !aims_right(p) {
        return Parsed::Malformed;
    }
    Parsed::Write {
        password: double_at(p, 0) as usize,
        bank: usize::from(bank_number(p)),
        pointer: usize::from(number_at(p, 5)),
        count,
    }
}

#[tactic(auto, using(crate::proofs::Tests::tests), unfolding(crate::specs::Commands::parse_lock, frame::specs::Bytes::pick))]
fn parse_lock(p: &[u8]) -> Parsed
    ensures { result ≡ parse_lock p.now }
{
    let ld = ld_in(p);
    if p.len() != 7 || 0x100000 <= ld {
        return Parsed::Malformed;
    }
    Parsed::Lock {
        password: double_at(p, 0) as usize,
        mask: ld / 1024,
        action: ld % 1024,
    }
}

#[tactic(auto, using(crate::proofs::Tests::tests), unfolding(crate::specs::Commands::parse_kill, frame::specs::Bytes::pick))]
fn parse_kill(p: &[u8]) -> Parsed
    ensures { result ≡ parse_kill p.now }
{
    if p.len() != 4 {
        return Parsed::Malformed;
    }
    Parsed::Kill {
        password: double_at(p, 0) as usize,
    }
}

#[tactic(auto, using(crate::proofs::Tests::tests), unfolding(crate::specs::Commands::parse, frame::specs::Bytes::pick))]
pub fn parse_command(code: u8, parameters: &[u8]) -> Parsed
    ensures { result ≡ parse code parameters.now }
{
    match code {
        0x22 => parse_inventory(parameters),
        0x39 => parse_read(parameters),
        0x49 => parse_write(parameters),
        0x82 => parse_lock(parameters),
        0x65 => parse_kill(parameters),
        _ => Parsed::Malformed,
    }
}
