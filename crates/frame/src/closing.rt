// Closing a frame round its parameters (document 01, "The frame").
ghost use Rattle.frame.specs.Closing.{Closing};

use crate::check::check;

// The parameters stand in the output already, from byte 5 on: the five bytes in front and the two behind are
// stored round them. PL is 129 at most, so its high byte is 0. Where the frame does not fit, or would be longer than
// an answer may be, nothing is stored and the length is 0.
pub fn close(output: &mut [u8], kind: u8, code: u8, pl: usize) -> usize
    ensures { Closing kind code pl output.old output.new result }
{
    if 129 < pl {
        return 0;
    }
    if output.len() < 7 + pl {
        return 0;
    }
    output[0] = 0xbb;
    output[1] = kind;
    output[2] = code;
    output[3] = 0;
    output[4] = pl as u8;
    let total = check(&output[1..5 + pl]);
    output[5 + pl] = total;
    output[6 + pl] = 0x7e;
    7 + pl
}
