// The rows and the foot of the sheet, written in pieces: each call of `write` fills a lent buffer, and hands back where to go on.
ghost use Rattle.std.specs.Prelude.{◌||◌, [], ◌≡◌, ◌+◌, ◌≤◌, length};
ghost use Rattle.frame.specs.Bytes.{pick};
ghost use Rattle.sheet.specs.Items.{closes as closes_by};
ghost use Rattle.sheet.specs.Sheet.{command_with, command_at, last_rows, teller};
ghost use Rattle.sheet.specs.Writing.{begun, longest_part, standing_at, OnePart};
ghost use Rattle.text.specs.Telling.{fill, Wrote};
ghost use Rattle.text.specs.Writing.{Puts};

use crate::items::{Failing, Items, closes, failing_of, items_after};
use calls::calling::call;
use foot::ending::put_end;
use frame::bytes::{byte_at, fits, number_at};
use frame::layout;
use machine::deciding::code_at;
use population::places::Population;
use reader::state::BenchState;
use report::writing::is_last;
use rows::row::put_item;
use tag::commands::Parsed;
use tag::parsing::parse_command;
use text::writer::Writer;

// Where a sheet stands between two pieces, beside the memory, the output and the selection's bytes.
#[derive(Clone, Copy)]
pub struct Progress {
    pub state: BenchState,
    pub items: Items,
    pub over: bool,
}

impl Progress {
    pub fn start() -> Self
        ensures { result ≡ begun }
    {
        Self {
            state: BenchState::fresh(),
            items: Items::none(),
            over: false,
        }
    }
}

// More than the longest part has: the rows of an item, and the foot.
const LONGEST_PART: usize = 1024;

// A command with this code, whose parameters begin within the input: of a frame that is cut off those that are there.
fn command_there(input: &[u8], cursor: usize, code: u8) -> Parsed
    requires { cursor + 5 ≤ length input.now }
    ensures { result ≡ command_with input.now cursor code }
{
    let first = cursor + layout::PARAMETERS;
    let pl = usize::from(number_at(&input[cursor..], 3));
    if input.len() - first < pl {
        return parse_command(code, &input[first..]);
    }
    parse_command(code, &input[first..first + pl])
}

// The command at the cursor.
fn command_at(input: &[u8], cursor: usize) -> Parsed
    ensures { result ≡ command_at input.now cursor }
{
    let code = code_at(input, cursor);
    if !fits(cursor, layout::PARAMETERS, input.len()) {
        return parse_command(code, &input[0..0]);
    }
    command_there(input, cursor, code)
}

// The rows of the last item, where there is one and it is told now.
fn put_last(writer: &mut Writer, input: &[u8], items: Items, told: bool)
    ensures { Puts 300 (pick told (last_rows input.now items) []) writer.old writer.new }
{
    let last = items.last;
    if told && items.count != 0 {
        let code = code_at(input, last.first);
        let parsed = command_at(input, last.first);
        put_item(writer, items.count, last, code, parsed);
    }
}

// Whether the last item is told now: the call ends the sheet, or begins another item.
fn is_told(over: bool, items: Items, cursor: usize, failing: Failing) -> bool
    ensures { result ≡ (over || closes_by items cursor failing) }
{
    over || closes(items, cursor, failing)
}

// One call, and its part.
fn write_part(
    writer: &mut Writer,
    input: &[u8],
    memory: &mut [u8],
    output: &mut [u8],
    selection: &mut [u8; 39],
    population: &Population,
    progress: &mut Progress,
)
    requires { writer.old.at + longest_part ≤ length writer.old.buffer.now }
    ensures { OnePart input.now (standing_at memory.old population.now selection.old output.old progress.old)
        writer.old writer.new
        (standing_at memory.new population.now selection.new output.new progress.new) progress.new.over }
{
    let cursor = progress.state.reader.cursor;
    let items = progress.items;
    let called = call(
        input,
        memory,
        output,
        selection,
        population,
        progress.state,
        false,
    );
    let outcome = called.outcome;
    let failing = failing_of(output, outcome);
    let over = is_last(outcome);
    let told = is_told(over, items, cursor, failing);
    put_last(writer, input, items, told);
    put_end(writer, input, called.state.reader, items.count, outcome);
    *progress = Progress {
        state: called.state,
        items: items_after(items, cursor, failing),
        over,
    };
}

// From the start of the buffer on, as many parts as are sure to fit: how many bytes they are. Where the longest has no room nothing changes.
pub fn write(
    input: &[u8],
    memory: &mut [u8],
    output: &mut [u8],
    selection: &mut [u8; 39],
    buffer: &mut [u8],
    population: &Population,
    progress: &mut Progress,
) -> usize
    ensures { Wrote
        (fill (teller input.now) longest_part (length buffer.old) progress.old.over
        (standing_at memory.old population.now selection.old output.old progress.old))
        buffer.old buffer.new result progress.new.over
        (standing_at memory.new population.now selection.new output.new progress.new) }
{
    let mut writer = Writer { buffer, at: 0 };
    while !progress.over && writer.has_room(LONGEST_PART) {
        write_part(
            &mut writer,
            input,
            memory,
            output,
            selection,
            population,
            progress,
        );
    }
    writer.at
}
