// CRC-16, worked bit by bit (document 01, "The commands": "CRC-16 of PC and EPC"). `lookup` has it from tables, `shifts` two bytes at a time for the tag.
#![tactic(auto)]

mod high_first;
pub mod lookup;
mod low_first;
pub mod shifts;

ghost use Rattle.std.specs.Prelude.{◌≡◌};
ghost use Rattle.crc.specs.Crc.{tag_crc};

// Which end of a byte goes in first. The tag's CRC takes the highest bit first.
#[derive(Clone, Copy)]
pub enum Direction {
    HighFirst,
    LowFirst,
}

// A CRC-16 of any preset: its polynomial, and from which end of a byte this is worked.
#[derive(Clone, Copy)]
pub struct Crc16 {
    pub direction: Direction,
    pub polynomial: u16,
}

impl Crc16 {
    ghost use Rattle.crc.specs.Crc.{bit_step, entered, byte_step, crc};

    // Polynomial 1021 hex, the tag's.
    pub const TAG: Crc16 = Crc16 {
        direction: Direction::HighFirst,
        polynomial: 0x1021,
    };

    // Polynomial 8408 hex, the one of source document 003.
    pub const READER: Crc16 = Crc16 {
        direction: Direction::LowFirst,
        polynomial: 0x8408,
    };

    // One bit leaves the register; where it was 1, the polynomial is added.
    fn bit_step(self, register: u16) -> u16
        ensures { result ≡ bit_step self.direction self.polynomial register }
    {
        match self.direction {
            Direction::HighFirst => {
                if 0x8000 <= register {
                    ((register % 0x8000) * 2) ^ self.polynomial
                } else {
                    register * 2
                }
            }
            Direction::LowFirst => {
                if register % 2 == 1 {
                    (register / 2) ^ self.polynomial
                } else {
                    register / 2
                }
            }
        }
    }

    // A byte is added at the end of the register that the bits leave by.
    #[tactic(auto, unfolding(crate::specs::Crc::entered))]
    fn enter(self, register: u16, b: u8) -> u16
        ensures { result ≡ entered self.direction register b }
    {
        match self.direction {
            Direction::HighFirst => register ^ (u16::from(b) * 256),
            Direction::LowFirst => register ^ u16::from(b),
        }
    }

    // A byte enters, and its eight bits are worked. They are counted up from 0: a compiler that knows this loop makes a table of it.
    fn byte_step(self, register: u16, b: u8) -> u16
        ensures { result ≡ byte_step self.direction self.polynomial register b }
    {
        let mut worked = self.enter(register, b);
        for _ in 0..u8::BITS {
            worked = self.bit_step(worked);
        }
        worked
    }

    // The register after the bytes, from any register on.
    pub fn crc_of(self, register: u16, bytes: &[u8]) -> u16
        ensures { result ≡ crc self.direction self.polynomial register bytes.now }
    {
        let mut worked = register;
        for b in bytes {
            worked = self.byte_step(worked, *b);
        }
        worked
    }
}

// The CRC-16 of a tag: polynomial 1021 hex, preset FFFF, complemented.
pub fn tag_crc(bytes: &[u8]) -> u16
    ensures { result ≡ tag_crc bytes.now }
{
    0xffff - Crc16::TAG.crc_of(0xffff, bytes)
}
