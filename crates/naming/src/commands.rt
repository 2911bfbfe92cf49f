// The column of the command: its code, and where its fields are right its name and those of them that are no password and no data.
ghost use Rattle.std.specs.Prelude.{◌≡◌};
ghost use Rattle.naming.specs.Commands.{bank_name, aim_text, bits_text, lock_text, fields_text, command_text};
ghost use Rattle.text.specs.Writing.{LaysWithin, Puts};

use tag::commands::Parsed;
use text::writer::Writer;

fn bank_name(bank: usize) -> &'static [u8]
    ensures { result.now ≡ bank_name bank }
{
    match bank {
        0 => b"Reserved",
        1 => b"EPC",
        2 => b"TID",
        _ => b"User",
    }
}

fn put_aim(writer: &mut Writer, bank: usize, pointer: usize, count: usize)
    ensures { Puts 50 (aim_text bank pointer count) writer.old writer.new }
{
    writer.put_text(bank_name(bank));
    writer.put_text(b" ");
    writer.put_decimal(pointer as u64);
    writer.put_text(b"+");
    writer.put_decimal(count as u64);
}

// The last sixteen bits, in four hex digits.
fn put_bits(writer: &mut Writer, bits: usize)
    ensures { Puts 4 (bits_text bits) writer.old writer.new }
{
    writer.put_hex((bits / 256 % 256) as u8);
    writer.put_hex((bits % 256) as u8);
}

fn put_lock(writer: &mut Writer, mask: usize, action: usize)
    ensures { Puts 27 (lock_text mask action) writer.old writer.new }
{
    writer.put_text(b" Lock mask ");
    put_bits(writer, mask);
    writer.put_text(b" action ");
    put_bits(writer, action);
}

fn put_fields(writer: &mut Writer, parsed: Parsed)
    ensures { Puts 57 (fields_text parsed) writer.old writer.new }
{
    match parsed {
        Parsed::Malformed => {}
        Parsed::Inventory => writer.put_text(b" Inventory"),
        Parsed::Read {
            password: _,
            bank,
            pointer,
            count,
        } => {
            writer.put_text(b" Read ");
            put_aim(writer, bank, pointer, count);
        }
        Parsed::Write {
            password: _,
            bank,
            pointer,
            count,
        } => {
            writer.put_text(b" Write ");
            put_aim(writer, bank, pointer, count);
        }
        Parsed::Lock {
            password: _,
            mask,
            action,
        } => put_lock(writer, mask, action),
        Parsed::Kill { password: _ } => writer.put_text(b" Kill"),
    }
}

fn put_command_text(writer: &mut Writer, code: u8, parsed: Parsed)
    ensures { Puts 59 (command_text code parsed) writer.old writer.new }
{
    writer.put_hex(code);
    put_fields(writer, parsed);
}

// Each number has room for its twenty digits, or nothing is put.
pub fn put_command(writer: &mut Writer, code: u8, parsed: Parsed)
    ensures { LaysWithin 59 (command_text code parsed) writer.old writer.new }
{
    if writer.has_room(59) {
        put_command_text(writer, code, parsed);
    }
}
