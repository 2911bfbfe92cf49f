// The column of the result, for an error answer.
ghost use Rattle.std.specs.Prelude.{◌≡◌};
ghost use Rattle.naming.specs.Errors.{tag_words, error_words, error_text};
ghost use Rattle.text.specs.Writing.{LaysWithin, Puts};

use text::writer::Writer;

fn tag_words(error: u8) -> &'static [u8]
    ensures { result.now ≡ tag_words error }
{
    match error {
        0x16 => b"wrong access password",
        0xa3 => b"the bank has no such words",
        0xb3 => b"no such words, or PC does not fit",
        0xa4 => b"region locked",
        0xb4 => b"region locked, or EPC word 0",
        0xc3 => b"the tag has no User words",
        0xc4 => b"a permalocked region would change",
        0xd0 => b"no kill password is stored",
        _ => b"not listed",
    }
}

fn error_words(error: u8) -> &'static [u8]
    ensures { result.now ≡ error_words error }
{
    match error {
        0x17 => b"code not listed, or a wrong field",
        0x15 | 0x09 | 0x10 => b"no tag present that matches",
        0x13 => b"no tag present, or not secured",
        0x12 => b"no tag, or another kill password",
        _ => tag_words(error),
    }
}

fn put_error_text(writer: &mut Writer, error: u8)
    ensures { Puts 36 (error_text error) writer.old writer.new }
{
    writer.put_hex(error);
    writer.put_text(b" ");
    writer.put_text(error_words(error));
}

// The longest words have room, or nothing is put.
pub fn put_error(writer: &mut Writer, error: u8)
    ensures { LaysWithin 36 (error_text error) writer.old writer.new }
{
    if writer.has_room(36) {
        put_error_text(writer, error);
    }
}
