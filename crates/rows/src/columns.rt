// A row has 99 columns and a newline. It begins blank, with its two boxes, and the text of each column is laid over it.
ghost use Rattle.rows.specs.Columns.{boxed_row, plain_row, blank_rows};
ghost use Rattle.text.specs.Writing.{Puts};

use text::writer::Writer;

// How many columns the number of an item has, and where the others begin.
pub(crate) const NUMBER: usize = 4;

pub(crate) const BYTE: usize = 7;

pub(crate) const COMMAND: usize = 20;

pub(crate) const RESULT: usize = 50;

// A row with nothing in it but its boxes, and one without boxes.
pub(crate) fn put_boxed(writer: &mut Writer)
    ensures { Puts 100 boxed_row writer.old writer.new }
{
    writer.put_spaces(88);
    writer.put_text(b"  [ ]   [ ]\n");
}

fn put_plain(writer: &mut Writer)
    ensures { Puts 100 plain_row writer.old writer.new }
{
    writer.put_spaces(99);
    writer.put_text(b"\n");
}

// As many rows as so many reasons take.
pub(crate) fn put_blank(writer: &mut Writer, reasons: usize)
    ensures { Puts 300 (blank_rows reasons) writer.old writer.new }
{
    put_boxed(writer);
    if reasons <= 2 {
        return;
    }
    put_plain(writer);
    if reasons <= 4 {
        return;
    }
    put_plain(writer);
}
