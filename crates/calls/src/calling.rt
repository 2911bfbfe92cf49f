// One call over a crate of tags: the machine's step, on a memory, an output and a selection that the caller lends. What is to be done is decided first, and
// then done.
ghost use Rattle.std.specs.Prelude.{List, [], ◌∷◌, ◌≡◌, ℕ, ◌+◌, ◌≤◌, ◌<◌, eqb, length};
ghost use Rattle.reader.specs.Readers.{reader_of};
ghost use Rattle.machine.specs.Lent.{selection_in};
ghost use Rattle.calls.specs.Calls.{step_of, lent_of, lent_after, lent_by, Ready, Doable, AimDone, Told, Selected};
ghost use Rattle.machine.specs.Machine.{call as a_call, state_of, carried_out, step_unless, plain_error};
ghost use Rattle.execution.specs.Execution.{FrameWritten};
ghost use Rattle.frame.specs.Bytes.{pick};
ghost use Rattle.frame.specs.Frames.{frame_of};
ghost use Rattle.reader.specs.Tallies.{with_error};
ghost use Rattle.tag.specs.Commands.{act_of};
ghost use Rattle.population.specs.Places.{image_at};
ghost use Rattle.population.specs.declared.places.Place.{Place as PlaceOf};

use execution::execute::Executed;
use frame::closing::close;
use frame::copying::copy;
use frame::layout;
use machine::deciding::{Aimed, Job, decide};
use population::executing::execute_at;
use population::places::Population;
use population::selection::is_taken;
use reader::outcome::Outcome;
use reader::state::{BenchState, Reader};

// What a call hands back beside memory, output and selection: how it ended, the length of the frame written, and the state for the next one.
#[derive(Clone, Copy)]
pub struct Called {
    pub outcome: Outcome,
    pub length: usize,
    pub state: BenchState,
}

// A frame with one parameter byte.
fn put_byte(output: &mut [u8], code: u8, b: u8) -> usize
    requires { 136 ≤ length output.old }
    ensures { FrameWritten (frame_of 0x01 code (b ∷ [])) output.old output.new result }
{
    output[layout::PARAMETERS] = b;
    close(output, 0x01, code, 1)
}

// No tag is there for the command.
fn miss(output: &mut [u8], state: BenchState, error: u8, behind: usize) -> Called
    requires { 136 ≤ length output.old }
    ensures { Told (plain_error error) output.old output.new (reader_of behind (with_error state.reader.tally)) state.selected result }
{
    let length = put_byte(output, 0xff, error);
    let reader = Reader {
        cursor: behind,
        tally: state.reader.tally.with_error(),
    };
    Called {
        outcome: Outcome::Answered,
        length,
        state: BenchState {
            reader,
            next: 16,
            selected: state.selected,
        },
    }
}

// Set Select: its parameters become the selection, where they are such as it takes.
fn select(
    output: &mut [u8],
    selection: &mut [u8; 39],
    parameters: &[u8],
    state: BenchState,
    behind: usize,
) -> Called
    requires { 136 ≤ length output.old }
    ensures { Selected selection.old output.old parameters.now state.reader state.selected behind selection.new output.new result }
{
    if !is_taken(parameters) {
        return miss(output, state, 0x17, behind);
    }
    let length = put_byte(output, 0x0c, 0);
    // The mask length is one byte, so that no more than 39 parameters are taken.
    copy(parameters, 0, parameters.len(), selection, 0);
    let reader = Reader {
        cursor: behind,
        tally: state.reader.tally.with_good(),
    };
    Called {
        outcome: Outcome::Answered,
        length,
        state: BenchState {
            reader,
            next: 16,
            selected: parameters.len(),
        },
    }
}

// Only an inventory that found a tag leaves tags to hand out: those behind it.
fn next_after(code: u8, number: usize) -> usize
    requires { number < 16 }
    ensures { result ≡ pick (eqb code 0x22) (number + 1) 16 }
{
    if code == 0x22 {
        return number + 1;
    }
    16
}

// The one place where a command is carried out at a tag; it is counted by its answer. Where that is no error the tags from `state.next` on are still to hand out.
fn aim(
    memory: &mut [u8],
    output: &mut [u8],
    parameters: &[u8],
    aimed: Aimed,
    state: BenchState,
) -> Called
    requires { Ready memory.old output.old aimed.place }
    ensures { AimDone memory.old output.old parameters.now aimed state.reader state.next state.selected
        (act_of (image_at memory.old aimed.place) aimed.code parameters.now) memory.new output.new result }
{
    let tally = state.reader.tally;
    let (length, tally, next) = match execute_at(
        memory,
        aimed.place,
        output,
        aimed.code,
        parameters,
    ) {
        Executed::Good(length) => (length, tally.with_good(), state.next),
        Executed::Error(length) => (length, tally.with_error(), 16),
        // The population and the output were tested before.
        Executed::Refused => unreachable!(),
    };
    Called {
        outcome: Outcome::Answered,
        length,
        state: BenchState {
            reader: Reader {
                cursor: aimed.behind,
                tally,
            },
            next,
            selected: state.selected,
        },
    }
}

// The job that was decided on is done.
fn carry_out(
    input: &[u8],
    memory: &mut [u8],
    output: &mut [u8],
    selection: &mut [u8; 39],
    state: BenchState,
    job: Job,
) -> Called
    requires { Doable input.now memory.old output.old state.reader job }
    ensures { ((places : List PlaceOf) (tags : ℕ)
        → step_of result memory.new places tags selection.new output.new
        ≡ carried_out input.now
        (state_of memory.old places tags (selection_in selection.old state.selected) output.old state.reader state.next) job)
        × (lent_of selection.new result.state.selected
        ≡ lent_after input.now state.reader.cursor (lent_of selection.old state.selected) job) }
{
    let cursor = state.reader.cursor;
    match job {
        Job::Stay(outcome) => Called {
            outcome,
            length: 0,
            state,
        },
        Job::DropByte(reason) => {
            let reader = Reader {
                cursor: cursor + 1,
                tally: state.reader.tally.with_dropped(reason),
            };
            Called {
                outcome: Outcome::Dropped(reason),
                length: 0,
                state: BenchState { reader, ..state },
            }
        }
        Job::Select(pl) => {
            let first = cursor + layout::PARAMETERS;
            let parameters = &input[first..first + pl];
            select(
                output,
                selection,
                parameters,
                state,
                cursor + layout::AROUND + pl,
            )
        }
        Job::Miss { error, pl } => miss(output, state, error, cursor + layout::AROUND + pl),
        Job::Aim(aimed) => {
            let parameters = &input[aimed.first..aimed.first + aimed.pl];
            let next = next_after(aimed.code, aimed.number);
            aim(
                memory,
                output,
                parameters,
                aimed,
                BenchState { next, ..state },
            )
        }
    }
}

// For any input, memory, output, selection, population and state.
pub fn call(
    input: &[u8],
    memory: &mut [u8],
    output: &mut [u8],
    selection: &mut [u8; 39],
    population: &Population,
    state: BenchState,
    full: bool,
) -> Called
    ensures { (step_of result memory.new population.now.places population.now.tags selection.new output.new
        ≡ step_unless full (a_call input.now)
        (state_of memory.old population.now.places population.now.tags (selection_in selection.old state.selected) output.old state.reader state.next))
        × (lent_of selection.new result.state.selected
        ≡ lent_by full input.now
        (state_of memory.old population.now.places population.now.tags (selection_in selection.old state.selected) output.old state.reader state.next)
        (lent_of selection.old state.selected)) }
{
    let job = decide(input, memory, output, selection, population, state, full);
    carry_out(input, memory, output, selection, state, job)
}
