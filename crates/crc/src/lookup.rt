// CRC-16 looked up in tables of 256 words, two bytes at a time. The tables are lent: a constant is copied to the stack wherever it is used, which
// costs as much as a CRC of some twenty bytes, so whoever works many CRCs takes `near` and `far` once and lends them as `Tables`.
ghost use Rattle.std.specs.Prelude.{◌≡◌};
ghost use Rattle.crc.specs.Crc.{crc, tag_crc, reader_crc};
ghost use Rattle.crc.specs.Tables.{near_table, far_table, polynomial_of};

use crate::{Direction, high_first, low_first};

impl Direction {
    ghost use Rattle.crc.specs.Tables.{place as place_of, moved as moved_of};

    // The table of the byte that is looked up last.
    pub fn near(self) -> [u16; 256]
        ensures { result ≡ near_table self }
    {
        match self {
            Direction::HighFirst => high_first::NEAR,
            Direction::LowFirst => low_first::NEAR,
        }
    }

    // The table of the byte before it.
    pub fn far(self) -> [u16; 256]
        ensures { result ≡ far_table self }
    {
        match self {
            Direction::HighFirst => high_first::FAR,
            Direction::LowFirst => low_first::FAR,
        }
    }

    // The eight bits that leave the register, with the byte that enters.
    #[tactic(auto, unfolding(crate::specs::Tables::place))]
    fn place(self, register: u16, b: u8) -> u8
        ensures { result ≡ place_of self register b }
    {
        match self {
            Direction::HighFirst => ((register / 256) as u8) ^ b,
            Direction::LowFirst => ((register % 256) as u8) ^ b,
        }
    }

    // The other eight move to where those stood.
    #[tactic(auto, unfolding(crate::specs::Tables::moved))]
    fn moved(self, register: u16) -> u16
        ensures { result ≡ moved_of self register }
    {
        match self {
            Direction::HighFirst => (register % 256) * 256,
            Direction::LowFirst => register / 256,
        }
    }
}

// The tables of a direction, lent.
#[derive(Clone, Copy)]
pub struct Tables<'a> {
    pub direction: Direction,
    pub near: &'a [u16; 256],
    pub far: &'a [u16; 256],
}

impl Tables<'_> {
    ghost use Rattle.crc.specs.Tables.{table_step, table_steps, table_crc};

    #[tactic(auto, unfolding(crate::specs::Tables::table_step))]
    fn one_byte(&self, register: u16, b: u8) -> u16
        ensures { result ≡ table_step self.now.direction self.now.near.now register b }
    {
        let at = usize::from(self.direction.place(register, b));
        self.near[at] ^ self.direction.moved(register)
    }

    // What moved up meets the second byte, so the two look up side by side and not one behind the other.
    #[tactic(auto, unfolding(crate::specs::Tables::table_steps))]
    fn two_bytes(&self, register: u16, a: u8, b: u8) -> u16
        ensures { result ≡ table_steps self.now.direction self.now.near.now self.now.far.now register a b }
    {
        let first = usize::from(self.direction.place(register, a));
        let second = usize::from(self.direction.place(self.direction.moved(register), b));
        self.far[first] ^ self.near[second]
    }

    // The register after the bytes, from any register on, by the tables that are lent.
    pub fn crc_of(&self, register: u16, bytes: &[u8]) -> u16
        ensures { result ≡ table_crc self.now.direction self.now.near.now self.now.far.now register bytes.now }
    {
        let (pairs, rest) = bytes.as_chunks::<2>();
        let mut worked = register;
        for pair in pairs {
            worked = self.two_bytes(worked, pair[0], pair[1]);
        }
        match rest {
            [last] => self.one_byte(worked, *last),
            _ => worked,
        }
    }
}

// The same number as the plain engine's for the polynomial of the direction, from any register on.
pub fn bound_crc(direction: Direction, register: u16, bytes: &[u8]) -> u16
    ensures { result ≡ crc direction (polynomial_of direction) register bytes.now }
{
    let tables = Tables {
        direction,
        near: &direction.near(),
        far: &direction.far(),
    };
    tables.crc_of(register, bytes)
}

// The CRC-16 of a tag, the same number as the plain `tag_crc`.
pub fn tag_crc(bytes: &[u8]) -> u16
    ensures { result ≡ tag_crc bytes.now }
{
    0xffff - bound_crc(Direction::HighFirst, 0xffff, bytes)
}

// The CRC-16 of the reader of source document 003: preset FFFF, not complemented.
pub fn reader_crc(bytes: &[u8]) -> u16
    ensures { result ≡ reader_crc bytes.now }
{
    bound_crc(Direction::LowFirst, 0xffff, bytes)
}
