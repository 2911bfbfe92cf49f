// The rows of an item, and of what waits at the end of the commands.
ghost use Rattle.std.specs.Prelude.{◌≡◌, ◌++◌, ◌+◌, ◌≤◌, ◌<◌, length};
ghost use Rattle.rows.specs.Rows.{range_text, bytes_text, dropped_in, error_row, drop_rows, item_rows, waiting_row};
ghost use Rattle.text.specs.Writing.{LaysWithin, Puts};

use crate::columns::{BYTE, COMMAND, NUMBER, RESULT, put_blank, put_boxed};
use crate::drops::{put_reasons, reasons_in};
use crate::items::Item;
use naming::commands::put_command;
use naming::errors::put_error;
use reader::tally::Tally;
use tag::commands::Parsed;
use text::words::word_for;
use text::writer::{Writer, missing};

fn put_range(writer: &mut Writer, first: usize, last: usize)
    ensures { Puts 41 (range_text first last) writer.old writer.new }
{
    writer.put_decimal(first as u64);
    if first != last {
        writer.put_text(b"-");
        writer.put_decimal(last as u64);
    }
}

// `7 bytes dropped` or `5 bytes waiting`
fn put_fate(writer: &mut Writer, n: usize, fate: &[u8])
    ensures { Puts (26 + length fate.now) (bytes_text n ++ fate.now) writer.old writer.new }
{
    let n = n as u64;
    writer.put_decimal(n);
    writer.put_text(word_for(n, b" byte", b" bytes"));
    writer.put_text(fate);
}

fn put_error_row(writer: &mut Writer, n: usize, first: usize, code: u8, parsed: Parsed, error: u8)
    requires { writer.old.at + 100 ≤ length writer.old.buffer.now }
    ensures { Puts 100 (error_row n first code parsed error) writer.old writer.new }
{
    let start = writer.at;
    put_boxed(writer);
    let behind = writer.at;
    writer.at = start;
    writer.put_right(NUMBER, n as u64);
    writer.at = start + BYTE;
    writer.put_decimal(first as u64);
    writer.at = start + COMMAND;
    put_command(writer, code, parsed);
    writer.at = start + RESULT;
    put_error(writer, error);
    writer.at = behind;
}

// How many bytes were dropped, for all the reasons.
pub fn dropped_in(tally: Tally) -> usize
    ensures value { result ≡ dropped_in tally }
    ensures upper_bound { result < 21474836480 }
{
    tally.header as usize
        + tally.kind as usize
        + tally.long as usize
        + tally.check as usize
        + tally.end as usize
}

fn put_drop_rows(writer: &mut Writer, n: usize, first: usize, last: usize, tally: Tally)
    requires { writer.old.at + 300 ≤ length writer.old.buffer.now }
    ensures { Puts 300 (drop_rows n first last tally) writer.old writer.new }
{
    let start = writer.at;
    put_blank(writer, reasons_in(tally));
    let behind = writer.at;
    writer.at = start;
    writer.put_right(NUMBER, n as u64);
    writer.at = start + BYTE;
    put_range(writer, first, last);
    writer.at = start + COMMAND;
    put_fate(writer, dropped_in(tally), b" dropped");
    put_reasons(writer, start, tally);
    writer.at = behind;
}

// The item with this number. The command is that at its first byte; of dropped bytes it is not looked at.
pub fn put_item(writer: &mut Writer, n: usize, item: Item, code: u8, parsed: Parsed)
    ensures { LaysWithin 300 (item_rows n item code parsed) writer.old writer.new }
{
    if !writer.has_room(300) {
        return;
    }
    if item.error == 0 {
        put_drop_rows(writer, n, item.first, item.last, item.drops);
    } else {
        put_error_row(writer, n, item.first, code, parsed, item.error);
    }
}

fn put_waiting_row(writer: &mut Writer, first: usize, behind: usize)
    requires { writer.old.at + 100 ≤ length writer.old.buffer.now }
    ensures { Puts 100 (waiting_row first behind) writer.old writer.new }
{
    let start = writer.at;
    put_boxed(writer);
    let next = writer.at;
    writer.at = start + 3;
    writer.put_text(b"-");
    writer.at = start + BYTE;
    put_range(writer, first, missing(behind, 1));
    writer.at = start + COMMAND;
    put_fate(writer, missing(behind, first), b" waiting");
    writer.at = start + RESULT;
    writer.put_text(b"not a whole frame");
    writer.at = next;
}

// What waits from `first` on, up to the byte before `behind`: it is no failure, and has no number.
pub fn put_waiting(writer: &mut Writer, first: usize, behind: usize)
    ensures { LaysWithin 100 (waiting_row first behind) writer.old writer.new }
{
    if writer.has_room(100) {
        put_waiting_row(writer, first, behind);
    }
}
