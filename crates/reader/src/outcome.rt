// How a call ends, and the papers' number for each: that of the answer, and that of the reason of a drop.
ghost use Rattle.std.specs.Prelude.{◌≡◌};
ghost use Rattle.reader.specs.Outcomes.{number_of, reason_of};

use frame::finding::Reason;

#[derive(Clone, Copy)]
pub enum Outcome {
    // 0: a command was accepted.
    Answered,
    // 1: the cursor is at the end.
    AtEnd,
    // 2: the frame is not complete.
    Incomplete,
    // 3: a byte was dropped, for this reason.
    Dropped(Reason),
    // 10: the cursor is past the end.
    PastEnd,
    // 11: the image is bad.
    BadImage,
    // 12: the output is shorter than 136 bytes.
    ShortOutput,
    // 13: a tally count is at its limit.
    FullTally,
    // 14: the list of failures is full.
    FullList,
}

// The number of the answer.
impl From<Outcome> for u64 {
    ghost from_gives = { λ outcome n. n ≡ number_of outcome };

    #[tactic(auto, unfolding(crate::specs::Outcomes::number_of))]
    fn from(outcome: Outcome) -> u64 {
        match outcome {
            Outcome::Answered => 0,
            Outcome::AtEnd => 1,
            Outcome::Incomplete => 2,
            Outcome::Dropped(_) => 3,
            Outcome::PastEnd => 10,
            Outcome::BadImage => 11,
            Outcome::ShortOutput => 12,
            Outcome::FullTally => 13,
            Outcome::FullList => 14,
        }
    }
}

// The number of the reason; 0 where no byte was dropped.
#[tactic(auto, unfolding(crate::specs::Outcomes::reason_of))]
pub fn reason_of(outcome: Outcome) -> u64
    ensures { result ≡ reason_of outcome }
{
    match outcome {
        Outcome::Dropped(reason) => u64::from(reason),
        _ => 0,
    }
}
