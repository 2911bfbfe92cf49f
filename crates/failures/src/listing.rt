// One call over a crate of tags, beside a list of failures that has `room` places, of which `held` are in use: what the call came to, and the record that is to
// be added. The list itself is not looked at here.
ghost use Rattle.std.specs.Prelude.{◌≡◌};
ghost use Rattle.machine.specs.Lent.{selection_in};
ghost use Rattle.machine.specs.Machine.{state_of};
ghost use Rattle.failures.specs.Listing.{as_failure, Beside};
ghost use Rattle.failures.specs.Records.{failure_for};

use crate::record::Record;
use calls::calling::{Called, call};
use frame::bytes::byte_at;
use frame::layout;
use machine::deciding::code_at;
use population::places::Population;
use reader::outcome::Outcome;
use reader::state::BenchState;

// What a call came to; the record that goes behind those held, where it failed; and how many are held then.
#[derive(Clone, Copy)]
pub struct Listed {
    pub called: Called,
    pub failure: Option<Record>,
    pub held: usize,
}

// What is to be listed of a call that was made at `cursor` and ended so, with its answer at the start of the output.
fn failure_of(cursor: usize, code: u8, output: &[u8], outcome: Outcome) -> Option<Record>
    ensures { result ≡ as_failure (failure_for cursor code output.now outcome) }
{
    match outcome {
        Outcome::Answered => {
            if byte_at(output, layout::CODE) != 0xff {
                return None;
            }
            Some(Record {
                cursor,
                code: u16::from(code),
                error: byte_at(output, layout::PARAMETERS),
            })
        }
        Outcome::Dropped(reason) => Some(Record {
            cursor,
            code: u64::from(reason) as u16,
            error: 0,
        }),
        _ => None,
    }
}

// For any input, memory, output, selection, population, state, room and number held.
pub fn call_beside(
    input: &[u8],
    memory: &mut [u8],
    output: &mut [u8],
    selection: &mut [u8; 39],
    population: &Population,
    state: BenchState,
    room: usize,
    held: usize,
) -> Listed
    ensures { Beside input.now
        (state_of memory.old population.now.places population.now.tags (selection_in selection.old state.selected) output.old state.reader state.next)
        selection.old state.selected room held memory.new selection.new output.new result }
{
    let cursor = state.reader.cursor;
    let code = code_at(input, cursor);
    let called = call(
        input,
        memory,
        output,
        selection,
        population,
        state,
        room <= held,
    );
    let failure = failure_of(cursor, code, output, called.outcome);
    let held = match failure {
        Some(_) => held + 1,
        None => held,
    };
    Listed {
        called,
        failure,
        held,
    }
}
