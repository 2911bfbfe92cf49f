// The acts that store (document 01, "The commands"). Each tests that the bytes it stores have their place in the image, answers, and
// then stores.
ghost use Rattle.std.specs.Prelude.{◌≡◌, true, List, ℕ, Ok, ◌+◌, ◌≤◌, length};
ghost use Rattle.tag.specs.Answers.{crc_kept};
ghost use Rattle.tag.specs.declared.commands.Act.TheVariants.{Store, Set};
ghost use Rattle.execution.specs.Execution.{Acted};
ghost use Rattle.execution.specs.Reach.{has_epc};

use crate::execute::Executed;
use crate::putting::{Answerable, put_bytes};
use frame::bytes::{number_at, reaches};
use frame::copying::copy;
use image::crc_word::crc_of_epc;

// A Write to the EPC bank stores the CRC word of what then stands there, at the place of EPC word 0.
fn keep_crc(image: &mut [u8], bank: u8, at: usize)
    requires { at + 2 ≤ length image.old }
    ensures { image.new ≡ crc_kept bank at image.old }
{
    if bank != 1 {
        return;
    }
    let crc = crc_of_epc(image);
    put_bytes(image, at, 2, usize::from(crc));
}

// A Write's data are what follows the first nine of its parameters.
pub(crate) fn store(image: &mut [u8], output: &mut [u8], parameters: &[u8], at: usize) -> Executed
    requires { (has_epc image.old ≡ true) × (136 ≤ length output.old) }
    ensures { Acted image.old output.old parameters.now (Ok (Store at)) image.new output.new result }
{
    if parameters.len() < 9 {
        return Executed::Refused;
    }
    let n = parameters.len() - 9;
    if !reaches(image, at, n) {
        return Executed::Refused;
    }
    let word = usize::from(number_at(image, 10));
    let length = Answerable { image }.done(output, 0x49);
    copy(parameters, 9, n, image, at);
    keep_crc(image, parameters[4], word);
    Executed::Good(length)
}

// A Lock or a Kill.
pub(crate) fn set(
    image: &mut [u8],
    output: &mut [u8],
    code: u8,
    at: usize,
    count: usize,
    value: usize,
) -> Executed
    requires { (has_epc image.old ≡ true) × (136 ≤ length output.old) }
    ensures { (p : List ℕ) → Acted image.old output.old p (Ok (Set code at count value)) image.new output.new result }
{
    if !reaches(image, at, count) {
        return Executed::Refused;
    }
    let length = Answerable { image }.done(output, code);
    put_bytes(image, at, count, value);
    Executed::Good(length)
}
