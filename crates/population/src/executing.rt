// Carrying out one command on the tag at one place of the memory.
ghost use Rattle.population.specs.Executing.{ExecutionAt};

use crate::places::Place;
use execution::execute::{Executed, execute};
use frame::bytes::reaches;

// The command sees the bytes of the place and no others. A place that leaves the memory is refused, and nothing changes.
pub fn execute_at(
    memory: &mut [u8],
    place: Place,
    output: &mut [u8],
    code: u8,
    parameters: &[u8],
) -> Executed
    ensures { ExecutionAt memory.old place output.old code parameters.now memory.new output.new result }
{
    let from = place.from as usize;
    let size = place.size as usize;
    if !reaches(memory, from, size) {
        return Executed::Refused;
    }
    let to = from + size;
    execute(&mut memory[from..to], output, code, parameters)
}
