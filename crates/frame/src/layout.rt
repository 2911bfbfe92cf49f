// Where the fields of a frame stand (document 01, "The frame"): BB, type, code, PL in two bytes, the parameters, check, 7E.

// The code's place, and the first parameter's.
pub const CODE: usize = 2;

pub const PARAMETERS: usize = 5;

// The bytes of a frame beside its parameters: five in front, two behind.
pub const AROUND: usize = 7;
