// One failure, as it is listed.
ghost use Rattle.std.specs.Prelude.{◌≡◌};
ghost use Rattle.failures.specs.Records.{blank};

// Where the cursor stood before the call; the command's code, or the reason of a drop; and the error byte of the answer, 0 for a drop.
#[derive(Clone, Copy)]
pub struct Record {
    pub cursor: usize,
    pub code: u16,
    pub error: u8,
}

impl Record {
    // What stands where nothing was listed yet.
    pub fn blank() -> Self
        ensures { result ≡ blank }
    {
        Self {
            cursor: 0,
            code: 0,
            error: 0,
        }
    }
}
