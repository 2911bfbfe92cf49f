// The report, written in pieces: each call of `write` fills a lent buffer with whole lines, and hands back where to go on.
ghost use Rattle.std.specs.Prelude.{◌≡◌, ◌+◌, ◌≤◌, ◌<◌, length, MatchOption};
ghost use Rattle.report.specs.Lines.{longest_line, ends};
ghost use Rattle.report.specs.Writing.{started, Framed, line_by, state_at, OneLine, Refused, Wrote};
ghost use Rattle.text.specs.Writing.{Puts};

use crate::lines::{put_drop, put_frame};
use calls::calling::Called;
use failures::listing::call_beside;
use failures::record::Record;
use failures::records::{add_in, remove_in};
use frame::bytes::byte_at;
use population::places::Population;
use reader::outcome::Outcome;
use reader::state::BenchState;
use text::writer::{Writer, missing};

// Where a report stands between two pieces, beside the memory, the output and the selection's bytes: `held` says how many of the records are the list of
// failures.
#[derive(Clone, Copy)]
pub struct Progress {
    pub state: BenchState,
    pub records: [Record; 8],
    pub held: usize,
    pub over: bool,
}

impl Progress {
    pub fn start() -> Self
        ensures { result ≡ started }
    {
        Self {
            state: BenchState::fresh(),
            records: [Record::blank(); 8],
            held: 0,
            over: false,
        }
    }
}

// The longest line: a frame of 136 bytes, each with two digits and a separator.
const LONGEST_LINE: usize = 408;

// The report ends with this call's line.
pub fn is_last(outcome: Outcome) -> bool
    ensures { result ≡ ends outcome }
{
    !matches!(outcome, Outcome::Answered | Outcome::Dropped(_))
}

// The line of a call that was made at `cursor`.
fn put_line(writer: &mut Writer, input: &[u8], cursor: usize, output: &[u8], called: Called)
    requires { called.outcome ≡ Outcome.Answered → Framed called.length (length output.now) }
    ensures { Puts longest_line (line_by input.now cursor called output.now) writer.old writer.new }
{
    let outcome = called.outcome;
    let reader = called.state.reader;
    match outcome {
        Outcome::Answered => put_frame(writer, &output[..called.length]),
        Outcome::Dropped(_) => put_drop(writer, byte_at(input, cursor)),
        Outcome::AtEnd | Outcome::Incomplete => {
            writer.put_counts(reader.tally, missing(input.len(), reader.cursor));
        }
        Outcome::PastEnd
        | Outcome::BadImage
        | Outcome::ShortOutput
        | Outcome::FullTally
        | Outcome::FullList => writer.put_refused(u64::from(outcome)),
    }
}

// The list of failures, with room for one more.
#[derive(Clone, Copy)]
struct Roomy {
    records: [Record; 8],
    held: usize,
}

// A full list is acknowledged whole: its failures are told, each by its line.
fn with_room(records: [Record; 8], held: usize) -> Roomy
    ensures { result.held < 8 }
{
    if held < 8 {
        return Roomy { records, held };
    }
    Roomy {
        records: remove_in(records, 8, 8),
        held: 0,
    }
}

// One call, and its line.
fn write_line(
    writer: &mut Writer,
    input: &[u8],
    memory: &mut [u8],
    output: &mut [u8],
    selection: &mut [u8; 39],
    population: &Population,
    progress: &mut Progress,
)
    ensures { OneLine input.now (state_at memory.old population.now selection.old output.old progress.old)
        writer.old writer.new
        (state_at memory.new population.now selection.new output.new progress.new) progress.new.over }
{
    let cursor = progress.state.reader.cursor;
    let list = with_room(progress.records, progress.held);
    let listed = call_beside(
        input,
        memory,
        output,
        selection,
        population,
        progress.state,
        8,
        list.held,
    );
    let called = listed.called;
    put_line(writer, input, cursor, output, called);
    *progress = Progress {
        state: called.state,
        records: match listed.failure {
            Some(record) => add_in(list.records, list.held, record),
            None => list.records,
        },
        held: listed.held,
        over: is_last(called.outcome),
    };
}

// Whole lines from the start of the buffer on, as many as are sure to fit: how many bytes they are. A buffer shorter than the longest line is refused, and
// nothing changes.
pub fn write(
    input: &[u8],
    memory: &mut [u8],
    output: &mut [u8],
    selection: &mut [u8; 39],
    buffer: &mut [u8],
    population: &Population,
    progress: &mut Progress,
) -> Option<usize>
    ensures { MatchOption result
        (Refused buffer.old buffer.new progress.old progress.new
        (state_at memory.old population.now selection.old output.old progress.old)
        (state_at memory.new population.now selection.new output.new progress.new))
        (λ used. Wrote input.now buffer.old buffer.new
        (state_at memory.old population.now selection.old output.old progress.old) progress.old.over
        (state_at memory.new population.now selection.new output.new progress.new) progress.new.over used) }
{
    if buffer.len() < LONGEST_LINE {
        return None;
    }
    let mut writer = Writer { buffer, at: 0 };
    while !progress.over && writer.has_room(LONGEST_LINE) {
        write_line(
            &mut writer,
            input,
            memory,
            output,
            selection,
            population,
            progress,
        );
    }
    Some(writer.at)
}
