// What a call is to do: every test in the order of document 01, "Answer numbers of a call", a tag that is still to hand out, and "Finding a command".
// Nothing is changed here.
ghost use Rattle.std.specs.Prelude.{◌≡◌, ◌+◌, ◌≤◌, length};
ghost use Rattle.machine.specs.Lent.{selection_in};
ghost use Rattle.machine.specs.Machine.{state_of, code_at, command_job, find_job, decide, unless};

use crate::absent::error_without;
use frame::bytes::byte_at;
use frame::finding::{Found, Reason, find};
use frame::layout;
use population::places::{Place, Population};
use population::selection::is_good_selection;
use reader::outcome::Outcome;
use reader::state::BenchState;

// A command for one tag: its `pl` parameter bytes stand from `first` on, and the cursor goes to `behind`.
#[derive(Clone, Copy)]
pub struct Aimed {
    pub number: usize,
    pub place: Place,
    pub code: u8,
    pub first: usize,
    pub pl: usize,
    pub behind: usize,
}

// A job, as data: `carried_out` in specs/Machine.antt says what each comes to.
#[derive(Clone, Copy)]
pub enum Job {
    // The call ends so, with nothing changed.
    Stay(Outcome),
    // One byte is dropped, for this reason.
    DropByte(Reason),
    // The Set Select at the cursor, with this many parameter bytes.
    Select(usize),
    // The command at the cursor finds no tag, and is answered with this plain error.
    Miss { error: u8, pl: usize },
    // A command for one tag: the one at the cursor, or the inventory that hands out the next tag.
    Aim(Aimed),
}

// The code of the frame at the cursor; behind the end of the input stands 0.
pub fn code_at(input: &[u8], cursor: usize) -> u8
    ensures { result ≡ code_at input.now cursor }
{
    if input.len() <= cursor {
        return 0;
    }
    byte_at(input, cursor + layout::CODE)
}

// The command at the cursor, with `pl` parameter bytes, was accepted.
fn command_job(
    input: &[u8],
    memory: &[u8],
    selection: &[u8],
    population: &Population,
    cursor: usize,
    pl: usize,
) -> Job
    requires { cursor + (7 + pl) ≤ length input.now }
    ensures { result
        ≡ command_job input.now memory.now population.now.tags population.now.places selection.now cursor pl }
{
    let code = input[cursor + layout::CODE];
    if code == 0x0c {
        return Job::Select(pl);
    }
    let first = cursor + layout::PARAMETERS;
    match population.lowest(memory, selection, 0) {
        None => Job::Miss {
            error: error_without(code, &input[first..first + pl]),
            pl,
        },
        Some((number, place)) => Job::Aim(Aimed {
            number,
            place,
            code,
            first,
            pl,
            behind: cursor + layout::AROUND + pl,
        }),
    }
}

// What the finding rules come to.
fn find_job(
    input: &[u8],
    memory: &[u8],
    selection: &[u8],
    population: &Population,
    cursor: usize,
) -> Job
    requires { cursor ≤ length input.now }
    ensures { result ≡ find_job input.now memory.now population.now.tags population.now.places selection.now cursor }
{
    match find(&input[cursor..]) {
        Found::End => Job::Stay(Outcome::AtEnd),
        Found::Wait => Job::Stay(Outcome::Incomplete),
        Found::Drop(reason) => Job::DropByte(reason),
        Found::Accept(pl) => command_job(input, memory, selection, population, cursor, pl),
    }
}

// For any input, memory, output, selection, population and state. `full` says that no record of a failure has room: then whatever is not refused before is.
pub fn decide(
    input: &[u8],
    memory: &[u8],
    output: &[u8],
    selection: &[u8; 39],
    population: &Population,
    state: BenchState,
    full: bool,
) -> Job
    ensures { result
        ≡ unless full
        (decide input.now
        (state_of memory.now population.now.places population.now.tags (selection_in selection.now state.selected) output.now state.reader state.next)) }
{
    let cursor = state.reader.cursor;
    if input.len() < cursor {
        return Job::Stay(Outcome::PastEnd);
    }
    let Some(selected) = selection.get(..state.selected) else {
        return Job::Stay(Outcome::BadImage);
    };
    if !is_good_selection(selected) || !population.is_good(memory) {
        return Job::Stay(Outcome::BadImage);
    }
    if output.len() < 136 {
        return Job::Stay(Outcome::ShortOutput);
    }
    if state.reader.tally.is_full() {
        return Job::Stay(Outcome::FullTally);
    }
    if full {
        return Job::Stay(Outcome::FullList);
    }
    match population.lowest(memory, selected, state.next) {
        Some((number, place)) => Job::Aim(Aimed {
            number,
            place,
            code: 0x22,
            first: 0,
            pl: 0,
            behind: cursor,
        }),
        None => find_job(input, memory, selected, population, cursor),
    }
}
