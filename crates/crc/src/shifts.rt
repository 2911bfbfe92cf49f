// The tag's CRC without a table: what the plain steps of polynomial 1021 make of a register is a sum of shifts of it, of eight bytes at a time and of the
// rest by four and by two. For the fourteen bytes of a usual PC and EPC this is the fastest as it is built: a table that the compiler makes takes one byte after the
// other, and one of our own is copied first.
ghost use Rattle.std.specs.Prelude.{◌≡◌, ◌/◌, ◌%◌, ◌^◌};
ghost use Rattle.crc.specs.Crc.{bit_steps, byte_step, crc, tag_crc};
ghost use Rattle.crc.specs.Shifts.{spread, four_steps, eight_steps};
ghost use Rattle.crc.specs.declared.Direction.TheVariants.{HighFirst};

use crate::Crc16;

// The polynomial times what went over the upper end: its terms x^12, x^5 and 1.
fn spread_out(sum: u16) -> u16
    ensures { result ≡ spread sum }
{
    ((sum % 16) * 4096) ^ ((sum % 2048) * 32) ^ sum
}

// What goes over the upper end comes in again below, and there goes over once more.
fn sixteen_steps(register: u16) -> u16
    ensures { result ≡ bit_steps HighFirst 0x1021 16 register }
{
    let near = register ^ (register / 16);
    spread_out(near ^ (near / 256) ^ (register / 2048))
}

fn two_bytes(register: u16, a: u8, b: u8) -> u16
    ensures { result ≡ byte_step HighFirst 0x1021 (byte_step HighFirst 0x1021 register a) b }
{
    sixteen_steps(register ^ u16::from_be_bytes([a, b]))
}

// Thirty-two steps at once, of the register and four bytes as one number.
fn four_bytes(register: u16, four: u32) -> u16
    ensures { result ≡ four_steps register four }
{
    let word = (u64::from(register) * 65536) ^ u64::from(four);
    let once = word ^ (word / 16) ^ (word / 2048) ^ (word / 65536);
    let twice = once ^ (once / 256) ^ (once / 4194304);
    let sum = twice ^ (twice / 65536);
    spread_out((sum % 65536) as u16)
}

// Sixty-four steps at once, of the register and eight bytes as one number.
fn eight_bytes(register: u16, eight: u64) -> u16
    ensures { result ≡ eight_steps register (eight / 2 ^ 32) (eight % 2 ^ 32) }
{
    let word = (u64::from(register) * 281474976710656) ^ eight;
    let once = word ^ (word / 16) ^ (word / 2048) ^ (word / 65536);
    let twice = once ^ (once / 256) ^ (once / 4194304) ^ (once / 4294967296);
    let four_times = twice ^ (twice / 65536) ^ (twice / 17592186044416);
    let sum = four_times ^ (four_times / 4294967296);
    spread_out((sum % 65536) as u16)
}

// The register after the bytes, two at a time.
fn by_twos(register: u16, bytes: &[u8]) -> u16
    ensures { result ≡ crc HighFirst 0x1021 register bytes.now }
{
    let (pairs, rest) = bytes.as_chunks::<2>();
    let mut worked = register;
    for pair in pairs {
        worked = two_bytes(worked, pair[0], pair[1]);
    }
    match rest {
        [last] => Crc16::TAG.byte_step(worked, *last),
        _ => worked,
    }
}

// The same, four of them first where they are there.
fn by_fours(register: u16, bytes: &[u8]) -> u16
    ensures { result ≡ crc HighFirst 0x1021 register bytes.now }
{
    match bytes.split_first_chunk::<4>() {
        Some((four, rest)) => by_twos(four_bytes(register, u32::from_be_bytes(*four)), rest),
        None => by_twos(register, bytes),
    }
}

// The register after the bytes, from any register on.
pub fn shifted_crc(register: u16, bytes: &[u8]) -> u16
    ensures { result ≡ crc HighFirst 0x1021 register bytes.now }
{
    let (eights, rest) = bytes.as_chunks::<8>();
    let mut worked = register;
    for eight in eights {
        worked = eight_bytes(worked, u64::from_be_bytes(*eight));
    }
    by_fours(worked, rest)
}

// The CRC-16 of a tag, the same number as the plain `tag_crc`.
pub fn tag_crc(bytes: &[u8]) -> u16
    ensures { result ≡ tag_crc bytes.now }
{
    0xffff - shifted_crc(0xffff, bytes)
}
