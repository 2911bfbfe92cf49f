// Putting bytes into the output or the image. A function that puts a piece of an answer returns the place behind it.
ghost use Rattle.std.specs.Prelude.{◌≡◌, true, ◌+◌, ◌≤◌, length};
ghost use Rattle.std.proofs.lemmas.List.Edits.{sets};
ghost use Rattle.frame.specs.Bytes.{bytes_of};
ghost use Rattle.frame.specs.Putting.{Put};
ghost use Rattle.image.specs.Image.{pc_and_epc};
ghost use Rattle.tag.specs.Answers.{tail};
ghost use Rattle.execution.specs.Reach.{has_epc};

use frame::copying::copy;
use image::header::epc_span;

// The last `count` bytes of a number, high first.
pub(crate) fn put_bytes(bytes: &mut [u8], at: usize, count: usize, value: usize)
    requires { at + count ≤ length bytes.old }
    ensures { bytes.new ≡ sets bytes.old at (bytes_of count value) }
{
    if count == 0 {
        return;
    }
    put_bytes(bytes, at, count - 1, value / 256);
    bytes[at + (count - 1)] = (value % 256) as u8;
}

// An image that has what every answer needs: the PC and the L words behind it are there.
#[derive(Clone, Copy)]
pub(crate) struct Answerable<'a> {
    pub(crate) image: &'a [u8],
    pub ghost has_epc: { has_epc image.now ≡ true },
}

impl Answerable<'_> {
    // The PC and the EPC: EPC word 1 and the L words that follow it.
    pub(crate) fn put_pc_and_epc(self, output: &mut [u8], at: usize) -> usize
        requires { at + 64 ≤ length output.old }
        ensures put { Put (pc_and_epc self.entry.image.now) at output.old output.new result }
        ensures upper_bound { result ≤ at + 64 }
    {
        let place = epc_span(self.image);
        copy(self.image, place.from, place.count, output, at);
        at + place.count
    }

    // The tail: a byte that counts the bytes of PC and EPC, and these.
    pub(crate) fn put_tail(self, output: &mut [u8], at: usize) -> usize
        requires { at + 65 ≤ length output.old }
        ensures put { Put (tail self.entry.image.now) at output.old output.new result }
        ensures upper_bound { result ≤ at + 65 }
    {
        let place = epc_span(self.image);
        output[at] = place.count as u8;
        self.put_pc_and_epc(output, at + 1)
    }
}
