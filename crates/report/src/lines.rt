// The lines of frames and dropped bytes.
ghost use Rattle.std.specs.Prelude.{◌*◌, length};
ghost use Rattle.report.specs.Lines.{drop_line, frame_line};
ghost use Rattle.text.specs.Writing.{Puts};

use text::writer::Writer;

pub(crate) fn put_drop(writer: &mut Writer, dropped: u8)
    ensures { Puts 8 (drop_line dropped) writer.old writer.new }
{
    writer.put_text(b"DROP ");
    writer.put_hex(dropped);
    writer.put_text(b"\n");
}

// Each byte in two hex digits: behind it stands a space, and behind the last one the newline.
pub(crate) fn put_frame(writer: &mut Writer, frame: &[u8])
    ensures { Puts (3 * length frame.now) (frame_line frame.now) writer.old writer.new }
{
    for (i, b) in frame.iter().enumerate() {
        writer.put_hex(*b);
        if i + 1 < frame.len() {
            writer.put_text(b" ");
        } else {
            writer.put_text(b"\n");
        }
    }
}
