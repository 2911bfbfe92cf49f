// The files, each with its length.
ghost use Rattle.std.specs.Prelude.{[], ◌∷◌, ◌++◌, ◌*◌, ◌≤◌, ◌<◌, length};
ghost use Rattle.head.specs.Files.{tag_name, file_text, tag_lines};
ghost use Rattle.text.specs.Words.{ascii};
ghost use Rattle.text.specs.Writing.{Puts};

use text::words::word_for;
use text::writer::Writer;

// Twenty columns, with the name at their left and the length at their right, and the unit behind them.
fn put_file(writer: &mut Writer, name: &[u8], size: u64)
    requires { length name.now ≤ 20 }
    ensures { Puts 26 (file_text name.now size) writer.old writer.new }
{
    let start = writer.at;
    writer.put_spaces(20);
    writer.at = start;
    writer.put_text(name);
    writer.at = start;
    writer.put_right(20, size);
    writer.put_text(word_for(size, b" byte", b" bytes"));
}

// The file of the commands.
pub(crate) fn put_input(writer: &mut Writer, size: u64)
    ensures { Puts 26 (file_text (ascii "commands.bin") size) writer.old writer.new }
{
    put_file(writer, b"commands.bin", size);
}

// The line of a tag's file: `tag.img`, and of a crate `tag-00.img` and so on.
fn put_tag(writer: &mut Writer, numbered: bool, i: usize, size: u64)
    requires { i < 100 }
    ensures { Puts 27 (file_text (tag_name numbered i) size ++ (10 ∷ [])) writer.old writer.new }
{
    if numbered {
        let mut name = *b"tag-00.img";
        name[4] += (i / 10) as u8;
        name[5] += (i % 10) as u8;
        put_file(writer, &name, size);
    } else {
        put_file(writer, b"tag.img", size);
    }
    writer.put_text(b"\n");
}

pub(crate) fn put_tags(writer: &mut Writer, numbered: bool, sizes: &[u64])
    requires { length sizes.now ≤ 16 }
    ensures { Puts (27 * length sizes.now) (tag_lines numbered 0 sizes.now) writer.old writer.new }
{
    for (i, size) in sizes.iter().enumerate() {
        put_tag(writer, numbered, i, *size);
    }
}
