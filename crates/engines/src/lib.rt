// The CRC engines, each as a function of its own, so that a benchmark can time them side by side; the bench itself is in `embed`. `engines_c` exports them.
#![tactic(auto)]

ghost use Rattle.std.specs.Prelude.{◌≡◌, ◌-◌};
ghost use Rattle.crc.specs.Crc.{tag_crc, reader_crc};
ghost use Rattle.crc.specs.Tables.{near_table, far_table, table_crc};
ghost use Rattle.crc.specs.declared.Direction.TheVariants.{HighFirst, LowFirst};

use crc::lookup::{self, Tables};
use crc::{Direction, shifts};

// The tag's CRC bit by bit.
pub fn poldrisk_tag_crc_plain(bytes: &[u8]) -> u16
    ensures { result ≡ tag_crc bytes.now }
{
    crc::tag_crc(bytes)
}

// The tag's CRC two bytes at a time by shifts, as the bench works it.
pub fn poldrisk_tag_crc_shifts(bytes: &[u8]) -> u16
    ensures { result ≡ tag_crc bytes.now }
{
    shifts::tag_crc(bytes)
}

// The tag's CRC from tables that are copied for this call.
pub fn poldrisk_tag_crc_bound(bytes: &[u8]) -> u16
    ensures { result ≡ tag_crc bytes.now }
{
    lookup::tag_crc(bytes)
}

// The CRC of the reader of source document 003, likewise.
pub fn poldrisk_reader_crc_bound(bytes: &[u8]) -> u16
    ensures { result ≡ reader_crc bytes.now }
{
    lookup::reader_crc(bytes)
}

// The tables of the tag's polynomial, to be lent to the function below them.
pub fn poldrisk_tag_tables(near: &mut [u16; 256], far: &mut [u16; 256])
    ensures { (near.new ≡ near_table HighFirst) × (far.new ≡ far_table HighFirst) }
{
    *near = Direction::HighFirst.near();
    *far = Direction::HighFirst.far();
}

// With those tables it is the tag's CRC.
pub fn poldrisk_tag_crc_lent(near: &[u16; 256], far: &[u16; 256], bytes: &[u8]) -> u16
    ensures { result ≡ 0xFFFF - table_crc HighFirst near.now far.now 0xFFFF bytes.now }
{
    let tables = Tables {
        direction: Direction::HighFirst,
        near,
        far,
    };
    0xffff - tables.crc_of(0xffff, bytes)
}

// The tables of the reader's polynomial, and what is looked up in them.
pub fn poldrisk_reader_tables(near: &mut [u16; 256], far: &mut [u16; 256])
    ensures { (near.new ≡ near_table LowFirst) × (far.new ≡ far_table LowFirst) }
{
    *near = Direction::LowFirst.near();
    *far = Direction::LowFirst.far();
}

pub fn poldrisk_reader_crc_lent(near: &[u16; 256], far: &[u16; 256], bytes: &[u8]) -> u16
    ensures { result ≡ table_crc LowFirst near.now far.now 0xFFFF bytes.now }
{
    let tables = Tables {
        direction: Direction::LowFirst,
        near,
        far,
    };
    tables.crc_of(0xffff, bytes)
}
