// What a command is answered where no tag is present and matches.
ghost use Rattle.std.specs.Prelude.{◌≡◌};
ghost use Rattle.machine.specs.Machine.{error_without};
ghost use Rattle.tag.specs.Commands.{parse};

use tag::acts::act_of;
use tag::errors::Refusal;

// The header of a tag that is out of the field, and nothing behind it: whatever a command asks, such a tag answers as none does.
const ABSENT: [u8; 24] = [
    0, 0, 0, 0, 0, 0, 0, 0, 0, 0, 0, 0, 0, 0, 0, 0, 0, 0, 0, 0, 0, 0, 2, 0,
];

// The byte of the plain error: 17 where code or fields are wrong, else the one for no tag.
pub fn error_without(code: u8, parameters: &[u8]) -> u8
    ensures { result ≡ error_without (parse code parameters.now) }
{
    let Err(Refusal::Plain(e)) = act_of(&ABSENT, code, parameters) else {
        // It is always a plain error.
        return 0x17;
    };
    u8::from(e)
}
