// Finding a command (document 01, "Finding a command").
ghost use Rattle.std.specs.Prelude.{◌≡◌};
ghost use Rattle.frame.specs.Finding.{find, reason_number};
ghost use Rattle.frame.specs.Formats.{commands};

use crate::bytes::number_at;
use crate::check::check;

// Why a byte is dropped (request P1). `reason_number` in specs/Finding.antt gives the paper's number of each.
#[derive(Clone, Copy)]
pub enum Reason {
    // 1: the byte is not BB.
    NoHeader,
    // 2: the type is not that of a command.
    WrongType,
    // 3: PL is above 80.
    TooLong,
    // 4: the check is wrong, whatever the last byte is.
    WrongCheck,
    // 5: the last byte is not 7E.
    WrongEnd,
}

// The paper's number of a reason.
impl From<Reason> for u64 {
    ghost from_gives = { λ reason n. n ≡ reason_number reason };

    #[tactic(auto, unfolding(crate::specs::Finding::reason_number))]
    fn from(reason: Reason) -> u64 {
        match reason {
            Reason::NoHeader => 1,
            Reason::WrongType => 2,
            Reason::TooLong => 3,
            Reason::WrongCheck => 4,
            Reason::WrongEnd => 5,
        }
    }
}

// What the finding rules make of the input from the cursor on.
#[derive(Clone, Copy)]
pub enum Found {
    // Rule 1: nothing is left.
    End,
    // Rules 2, 3, 4 and 6: one byte is dropped, for this reason.
    Drop(Reason),
    // Rule 5: the frame is not all there.
    Wait,
    // Rule 7: a command is accepted; it has this many parameter bytes.
    Accept(usize),
}

// The rules in their order, each answer at the first test that settles it: no byte behind the frame is looked at,
// so no more than 87, and the check is taken of the frame's own bytes.
pub fn find(rest: &[u8]) -> Found
    ensures { result ≡ find commands rest.now }
{
    if rest.is_empty() {
        return Found::End;
    }
    if rest[0] != 0xbb {
        return Found::Drop(Reason::NoHeader);
    }
    if rest.len() == 1 {
        return Found::Wait;
    }
    if rest[1] != 0 {
        return Found::Drop(Reason::WrongType);
    }
    if rest.len() < 5 {
        return Found::Wait;
    }
    let pl = usize::from(number_at(rest, 3));
    if 80 < pl {
        return Found::Drop(Reason::TooLong);
    }
    if rest.len() < 7 + pl {
        return Found::Wait;
    }
    if rest[5 + pl] != check(&rest[1..5 + pl]) {
        return Found::Drop(Reason::WrongCheck);
    }
    if rest[6 + pl] != 0x7e {
        return Found::Drop(Reason::WrongEnd);
    }
    Found::Accept(pl)
}
