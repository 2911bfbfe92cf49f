// How many commands were taken: the finding rules alone say it.
ghost use Rattle.std.specs.Prelude.{◌≡◌};
ghost use Rattle.head.specs.Commands.{commands_in, commands_text};
ghost use Rattle.text.specs.Writing.{Puts};

use frame::finding::{Found, find};
use text::words::word_for;
use text::writer::Writer;

// How many commands the input holds. The finding rules take a dropped byte, or a command, which has at least seven.
pub fn commands_in(input: &[u8]) -> usize
    ensures { result ≡ commands_in input.now }
{
    let mut rest = input;
    let mut n = 0;
    loop {
        match find(rest) {
            Found::End | Found::Wait => return n,
            Found::Drop(_) => rest = &rest[1..],
            Found::Accept(pl) => {
                rest = &rest[7 + pl..];
                n += 1;
            }
        }
    }
}

pub(crate) fn put_commands(writer: &mut Writer, n: usize)
    ensures { Puts 37 (commands_text n) writer.old writer.new }
{
    let n = n as u64;
    writer.put_text(b", ");
    writer.put_decimal(n);
    writer.put_text(word_for(n, b" command taken", b" commands taken"));
}
