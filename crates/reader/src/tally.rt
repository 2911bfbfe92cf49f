// The tally: seven counts, by value. A method hands back the tally with one count raised.
ghost use Rattle.std.specs.Prelude.{◌≡◌};
ghost use Rattle.reader.specs.Tallies.{raised, fresh_tally, with_good, with_error, with_no_header, with_wrong_type, with_too_long, with_wrong_check, with_wrong_end, with_dropped, counts_of, full};

use frame::finding::Reason;

#[derive(Clone, Copy)]
pub struct Tally {
    // Good answers, and error answers.
    pub good: u32,
    pub error: u32,
    // Dropped bytes, by reason: no header, wrong type, too long, wrong check, wrong end.
    pub header: u32,
    pub kind: u32,
    pub long: u32,
    pub check: u32,
    pub end: u32,
}

// The most that a count can hold.
const LIMIT: u32 = u32::MAX;

// One more; at the limit a count stays, so that every method is total. A call refuses a full tally before it comes to that.
fn raise(count: u32) -> u32
    ensures { result ≡ raised count }
{
    count.saturating_add(1)
}

impl Tally {
    pub fn fresh() -> Self
        ensures { result ≡ fresh_tally }
    {
        Self {
            good: 0,
            error: 0,
            header: 0,
            kind: 0,
            long: 0,
            check: 0,
            end: 0,
        }
    }

    pub fn with_good(self) -> Self
        ensures { result ≡ with_good self }
    {
        Self {
            good: raise(self.good),
            ..self
        }
    }

    pub fn with_error(self) -> Self
        ensures { result ≡ with_error self }
    {
        Self {
            error: raise(self.error),
            ..self
        }
    }

    pub fn with_no_header(self) -> Self
        ensures { result ≡ with_no_header self }
    {
        Self {
            header: raise(self.header),
            ..self
        }
    }

    pub fn with_wrong_type(self) -> Self
        ensures { result ≡ with_wrong_type self }
    {
        Self {
            kind: raise(self.kind),
            ..self
        }
    }

    pub fn with_too_long(self) -> Self
        ensures { result ≡ with_too_long self }
    {
        Self {
            long: raise(self.long),
            ..self
        }
    }

    pub fn with_wrong_check(self) -> Self
        ensures { result ≡ with_wrong_check self }
    {
        Self {
            check: raise(self.check),
            ..self
        }
    }

    pub fn with_wrong_end(self) -> Self
        ensures { result ≡ with_wrong_end self }
    {
        Self {
            end: raise(self.end),
            ..self
        }
    }

    // A byte was dropped for this reason.
    #[tactic(auto, unfolding(crate::specs::Tallies::with_dropped))]
    pub fn with_dropped(self, reason: Reason) -> Self
        ensures { result ≡ with_dropped reason self }
    {
        match reason {
            Reason::NoHeader => self.with_no_header(),
            Reason::WrongType => self.with_wrong_type(),
            Reason::TooLong => self.with_too_long(),
            Reason::WrongCheck => self.with_wrong_check(),
            Reason::WrongEnd => self.with_wrong_end(),
        }
    }

    // The counts in their order.
    fn counts(self) -> [u32; 7]
        ensures { result ≡ counts_of self }
    {
        [
            self.good,
            self.error,
            self.header,
            self.kind,
            self.long,
            self.check,
            self.end,
        ]
    }

    // Some count is at the limit. Every call asks this, and hardly ever is one: the bits of all of them together settle it at once.
    pub fn is_full(self) -> bool
        ensures { result ≡ full self }
    {
        let bits = self.good
            | self.error
            | self.header
            | self.kind
            | self.long
            | self.check
            | self.end;
        if bits < LIMIT {
            return false;
        }
        self.counts().contains(&LIMIT)
    }
}
