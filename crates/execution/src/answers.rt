// The answer frame of each act (document 01, "The commands"). Its parameters are put where a frame has them, and then the frame is
// closed round them.
ghost use Rattle.std.specs.Prelude.{◌≡◌, List, [], ◌∷◌, ◌++◌, ℕ, Ok, Err, ◌≤◌, length};
ghost use Rattle.frame.specs.Frames.{frame_of};
ghost use Rattle.tag.specs.Answers.{tail, answer};
ghost use Rattle.tag.specs.Errors.{plain_byte};
ghost use Rattle.tag.specs.declared.commands.Act.TheVariants.{Notify, Give};
ghost use Rattle.tag.specs.declared.errors.Refusal.TheVariants.{Tag};
ghost use Rattle.execution.specs.Execution.{FrameWritten, Acted};

use crate::execute::Executed;
use crate::putting::Answerable;
use frame::bytes::{byte_at, number_at, reaches};
use frame::closing::close;
use frame::copying::copy;
use frame::layout::PARAMETERS;
use tag::errors::{PlainError, TagError};

// Code FF and one byte.
pub(crate) fn plain_error(output: &mut [u8], e: PlainError) -> usize
    requires { 136 ≤ length output.old }
    ensures { FrameWritten (frame_of 0x01 0xFF (plain_byte e ∷ [])) output.old output.new result }
{
    output[PARAMETERS] = u8::from(e);
    close(output, 0x01, 0xff, 1)
}

impl Answerable<'_> {
    // Code FF, one byte and the tail.
    pub(crate) fn tag_error(self, output: &mut [u8], e: TagError) -> usize
        requires { 136 ≤ length output.old }
        ensures { FrameWritten (answer self.entry.image.now (Err (Tag e))) output.old output.new result }
    {
        output[PARAMETERS] = u8::from(e);
        let next = self.put_tail(output, PARAMETERS + 1);
        close(output, 0x01, 0xff, next - PARAMETERS)
    }

    // RSSI, PC, EPC and the CRC word as it is stored.
    pub(crate) fn notify(self, output: &mut [u8]) -> usize
        requires { 136 ≤ length output.old }
        ensures { FrameWritten (answer self.entry.image.now (Ok Notify)) output.old output.new result }
    {
        output[PARAMETERS] = byte_at(self.image, 23);
        let next = self.put_pc_and_epc(output, PARAMETERS + 1);
        copy(
            self.image,
            usize::from(number_at(self.image, 10)),
            2,
            output,
            next,
        );
        close(output, 0x02, 0x22, next + 2 - PARAMETERS)
    }

    // The tail, then the words, no more than 32, which must be there.
    pub(crate) fn give(self, output: &mut [u8], at: usize, n: usize) -> Executed
        requires { 136 ≤ length output.old }
        ensures { (p : List ℕ) → Acted self.entry.image.now output.old p (Ok (Give at n)) self.entry.image.now output.new result }
    {
        if 64 < n {
            return Executed::Refused;
        }
        if !reaches(self.image, at, n) {
            return Executed::Refused;
        }
        let next = self.put_tail(output, PARAMETERS);
        copy(self.image, at, n, output, next);
        Executed::Good(close(output, 0x01, 0x39, next + n - PARAMETERS))
    }

    // The tail, then 00: a Write, a Lock or a Kill is done.
    pub(crate) fn done(self, output: &mut [u8], code: u8) -> usize
        requires { 136 ≤ length output.old }
        ensures { FrameWritten (frame_of 0x01 code (tail self.entry.image.now ++ (0x00 ∷ []))) output.old output.new result }
    {
        let next = self.put_tail(output, PARAMETERS);
        output[next] = 0;
        close(output, 0x01, code, next + 1 - PARAMETERS)
    }
}
