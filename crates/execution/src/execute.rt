// Carrying out one command on one tag's image (document 01, "The commands").
ghost use Rattle.std.specs.Prelude.{◌≡◌};
ghost use Rattle.execution.specs.Execution.{Execution};
ghost use Rattle.execution.specs.Reach.{answerable};

use crate::answers::plain_error;
use crate::putting::Answerable;
use crate::storing::{set, store};
use frame::bytes::reaches;
use image::header::epc_span;
use tag::acts::act_of;
use tag::commands::Act;
use tag::errors::Refusal;

// How a command went: nothing was done, or an answer of this many bytes was written.
#[derive(Clone, Copy)]
pub enum Executed {
    // The image lacks bytes that the command needs, or the output is shorter than an answer may be.
    Refused,
    Good(usize),
    // An answer with code FF.
    Error(usize),
}

// A good image has all that a command needs. What is tested here and in each act is no more than this, so that `execute` stands by
// itself and a call does not test the whole image twice.
fn is_answerable(image: &[u8]) -> bool
    ensures { result ≡ answerable image.now }
{
    if image.len() < 24 {
        return false;
    }
    let place = epc_span(image);
    reaches(image, place.from, place.count)
}

// Whatever the act, the answer is written before the store, so that the PC and the EPC in it are those before the command.
pub fn execute(image: &mut [u8], output: &mut [u8], code: u8, parameters: &[u8]) -> Executed
    ensures { Execution image.old output.old code parameters.now image.new output.new result }
{
    if output.len() < 136 {
        return Executed::Refused;
    }
    if !is_answerable(image) {
        return Executed::Refused;
    }
    match act_of(image, code, parameters) {
        Err(Refusal::Plain(e)) => Executed::Error(plain_error(output, e)),
        Err(Refusal::Tag(e)) => Executed::Error(Answerable { image }.tag_error(output, e)),
        Ok(Act::Notify) => Executed::Good(Answerable { image }.notify(output)),
        Ok(Act::Give { at, length }) => Answerable { image }.give(output, at, length),
        Ok(Act::Store { at }) => store(image, output, parameters, at),
        Ok(
            Act::Set {
                code: c,
                at,
                count,
                value,
            },
        ) => set(image, output, c, at, count, value),
    }
}
