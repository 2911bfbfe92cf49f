// Works every published CRC by both engines, and prints the bytes with the CRC behind them, high byte first, as the source does. The stored output
// was written from the sources: it is the published frames.
#![tactic(auto)]

use arrayvec::ArrayString;
use crc::{Crc16, lookup};
use std::fmt::{self, Write};

mod frames;

// The file descriptor of standard output.
const STDOUT_FILENO: i32 = 1;

// What standard output does not take is no failure: the next piece is tried.
fn print(text: &str) {
    io::write_all(STDOUT_FILENO, text.as_bytes());
}

// Two hex digits and what stands behind them, by one write.
fn print_byte(b: u8, behind: &str) -> fmt::Result {
    let mut piece = ArrayString::<4>::new();
    write!(piece, "{b:02X}{behind}")?;
    print(piece.as_str());
    Ok(())
}

// The bytes, and then the CRC: its high byte first.
fn print_frame(engine: &str, bytes: &[u8], crc: u16) -> fmt::Result {
    print(engine);
    for b in bytes {
        print_byte(*b, " ")?;
    }
    let [high, low] = crc.to_be_bytes();
    print_byte(high, " ")?;
    print_byte(low, "\n")
}

// The CRC of the reader of source document 003.
fn print_reader(heading: &str, bytes: &[u8]) -> fmt::Result {
    print(heading);
    print_frame("bit by bit ", bytes, Crc16::READER.crc_of(0xffff, bytes))?;
    print_frame("by tables  ", bytes, lookup::reader_crc(bytes))
}

// The CRC of a tag.
fn print_tag(heading: &str, bytes: &[u8]) -> fmt::Result {
    print(heading);
    print_frame("bit by bit ", bytes, crc::tag_crc(bytes))?;
    print_frame("by tables  ", bytes, lookup::tag_crc(bytes))
}

fn print_all() -> fmt::Result {
    print_reader("003 CRC16 Calculation, MODULE_INT\n", &frames::MODULE_INT)?;
    print_reader(
        "003 INVENTORY_ISO_CONTINUE, Command frame\n",
        &frames::INVENTORY,
    )?;
    print_reader(
        "003 Inventory Response Example\n",
        &frames::INVENTORY_ANSWER,
    )?;
    print_tag(
        "002 0x22 Single Inventory, Notification: PC, EPC, CRC\n",
        &frames::PC_AND_EPC,
    )
}

fn main() {
    let _ = print_all();
}
