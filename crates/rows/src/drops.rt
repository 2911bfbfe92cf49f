// The column of the result, for dropped bytes: each reason that some were dropped for, with their number, two to a row.
ghost use Rattle.std.specs.Prelude.{◌≡◌, ◌+◌, ◌≤◌, length};
ghost use Rattle.rows.specs.Rows.{is_some, reasons_in, with_cell, with_reasons};
ghost use Rattle.text.specs.Writing.{Holds};

use crate::columns::RESULT;
use reader::tally::Tally;
use text::writer::Writer;

// How many reasons some bytes were dropped for.
pub(crate) fn reasons_in(tally: Tally) -> usize
    ensures { result ≡ reasons_in tally }
{
    usize::from(tally.kind != 0)
        + usize::from(tally.long != 0)
        + usize::from(tally.check != 0)
        + usize::from(tally.end != 0)
        + usize::from(tally.header != 0)
}

// The one that is shown behind so many, in rows that begin at `start`; how many are shown then.
fn put_cell(writer: &mut Writer, start: usize, shown: usize, n: u32, word: &[u8]) -> usize
    requires in_bounds { start + 300 ≤ length writer.old.buffer.now }
    requires shown_bound { shown ≤ 4 }
    requires word_len_bound { length word.now ≤ 11 }
    ensures cell { Holds (with_cell start shown n word.now writer.old.buffer.now) writer.old writer.new }
    ensures value { result ≡ shown + is_some n }
{
    if n == 0 {
        return shown;
    }
    writer.at = start + 100 * (shown / 2) + RESULT + 18 * (shown % 2);
    writer.put_decimal(u64::from(n));
    writer.put_text(b" ");
    writer.put_text(word);
    shown + 1
}

pub(crate) fn put_reasons(writer: &mut Writer, start: usize, tally: Tally)
    requires { start + 300 ≤ length writer.old.buffer.now }
    ensures { Holds (with_reasons start tally writer.old.buffer.now) writer.old writer.new }
{
    let first = put_cell(writer, start, 0, tally.kind, b"wrong type");
    let second = put_cell(writer, start, first, tally.long, b"too long");
    let third = put_cell(writer, start, second, tally.check, b"wrong check");
    let fourth = put_cell(writer, start, third, tally.end, b"wrong end");
    put_cell(writer, start, fourth, tally.header, b"no header");
}
