// The head of the sheet: each file with its length, how many commands were taken, and the names of the columns.
ghost use Rattle.std.specs.Prelude.{◌≤◌, length};
ghost use Rattle.head.specs.Head.{head_of, Headed};
ghost use Rattle.text.specs.Writing.{Puts};

use crate::commands::{commands_in, put_commands};
use crate::files::{put_input, put_tags};
use text::writer::Writer;

fn put_head(writer: &mut Writer, numbered: bool, input: &[u8], sizes: &[u64])
    requires { length sizes.now ≤ 16 }
    ensures { Puts 2048 (head_of numbered input.now sizes.now) writer.old writer.new }
{
    writer.put_text(b"POLDRISK FAILURE SHEET\n");
    put_input(writer, input.len() as u64);
    put_commands(writer, commands_in(input));
    writer.put_text(b"\n");
    put_tags(writer, numbered, sizes);
    writer.put_text(
        b"\nITEM   BYTE         COMMAND                       RESULT                                MEANT FAULT\n",
    );
}

// The head, at the start of the buffer. For more than 16 tags, or a buffer of less than 2,048 bytes, nothing is written, and the result is 0.
pub fn write_head(numbered: bool, input: &[u8], sizes: &[u64], buffer: &mut [u8]) -> usize
    ensures { Headed numbered input.now sizes.now buffer.old buffer.new result }
{
    if 16 < sizes.len() {
        return 0;
    }
    if buffer.len() < 2048 {
        return 0;
    }
    let mut writer = Writer { buffer, at: 0 };
    put_head(&mut writer, numbered, input, sizes);
    writer.at
}
