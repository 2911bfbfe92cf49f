// The bench with a crate of tags and its list of failures, on numbers and lent slices as C has them: two functions, one for a call and one that acknowledges
// failures. `embed_c` exports them.
#![tactic(auto)]

ghost use Rattle.std.specs.Prelude.{◌≡◌, ◌≤◌, length, get_or};
ghost use Rattle.calls.specs.Calls.{lent_of};
ghost use Rattle.population.specs.Below.{all_below};
ghost use Rattle.embed.specs.Acknowledged.{list_left_by, acknowledged_on};
ghost use Rattle.embed.specs.Kept.{kept, kept_drop, kept_answer, kept_by};
ghost use Rattle.embed.specs.Packed.{reader_in, left_by, state_in, stepped, Unpacking, called as called_on};
ghost use Rattle.embed.specs.Placed.{used_of, small_at, places_fit};
ghost use Rattle.reader.specs.Outcomes.{number_of};

use calls::calling::Called;
use failures::listing::call_beside;
use failures::records::may_acknowledge;
use failures::triples::{add_numbers, remove_numbers};
use frame::finding::Reason;
use population::places::{Place, Population};
use reader::outcome::Outcome;
use reader::state::{BenchState, Reader};
use reader::tally::Tally;

// The most that a count of the tally can hold, and a number of a place.
const LIMIT: u64 = 4294967295;

// The reader of a cursor and seven counts; none where a count is more than a tally can hold: then it has a bit above theirs.
fn reader_of(state: &[u64; 13]) -> Option<Reader>
    ensures { result ≡ reader_in state.now }
{
    let bits = state[1] | state[2] | state[3] | state[4] | state[5] | state[6] | state[7];
    if LIMIT < bits {
        return None;
    }
    Some(Reader {
        cursor: state[0] as usize,
        tally: Tally {
            good: state[1] as u32,
            error: state[2] as u32,
            header: state[3] as u32,
            kind: state[4] as u32,
            long: state[5] as u32,
            check: state[6] as u32,
            end: state[7] as u32,
        },
    })
}

// A crate has no more than sixteen tags: of more numbers only these are looked at, and the call says that they are too many.
fn used_of(tags: usize) -> usize
    ensures { result ≡ used_of tags }
{
    tags.min(16)
}

// None of the first n numbers is more than a place can hold.
fn are_small(numbers: &[u64], n: usize) -> bool
    requires { (n ≤ 32) × (n ≤ length numbers.now) }
    ensures { result ≡ all_below (small_at numbers.now) n }
{
    for i in 0..n {
        if LIMIT < numbers[i] {
            return false;
        }
    }
    true
}

// The numbers are two for each tag, such as a place can hold.
fn are_places(numbers: &[u64]) -> bool
    ensures { result ≡ places_fit numbers.now }
{
    let n = numbers.len();
    n % 2 == 0 && are_small(numbers, 2 * used_of(n / 2))
}

// Of the thirteen numbers only those are stored that a call may have changed: five where a byte is dropped.

// Nothing changed but what is told of this call.
fn keep(state: &mut [u64; 13])
    ensures { state.new ≡ kept state.old }
{
    state[8] = 0;
    state[9] = 0;
}

// A byte was dropped: the cursor, the count of its reason, and how many records are held.
fn keep_drop(state: &mut [u64; 13], reader: Reader, reason: Reason, held: usize)
    ensures { state.new ≡ kept_drop state.old reader reason held }
{
    let tally = reader.tally;
    state[0] = reader.cursor as u64;
    state[8] = 0;
    state[9] = u64::from(reason);
    state[12] = held as u64;
    match reason {
        Reason::NoHeader => state[3] = u64::from(tally.header),
        Reason::WrongType => state[4] = u64::from(tally.kind),
        Reason::TooLong => state[5] = u64::from(tally.long),
        Reason::WrongCheck => state[6] = u64::from(tally.check),
        Reason::WrongEnd => state[7] = u64::from(tally.end),
    }
}

// A command was answered: all but the counts of the drops.
fn keep_answer(state: &mut [u64; 13], called: Called, held: usize)
    ensures { state.new ≡ kept_answer state.old called held }
{
    let bench = called.state;
    let tally = bench.reader.tally;
    state[0] = bench.reader.cursor as u64;
    state[1] = u64::from(tally.good);
    state[2] = u64::from(tally.error);
    state[8] = called.length as u64;
    state[9] = 0;
    state[10] = bench.next as u64;
    state[11] = bench.selected as u64;
    state[12] = held as u64;
}

// What the call changed is stored, and its number told.
fn tell(state: &mut [u64; 13], called: Called, held: usize) -> u64
    ensures { (result ≡ number_of called.outcome) × (state.new ≡ kept_by state.old called held called.outcome) }
{
    match called.outcome {
        Outcome::Dropped(reason) => keep_drop(state, called.state.reader, reason, held),
        Outcome::Answered => keep_answer(state, called, held),
        _ => keep(state),
    }
    u64::from(called.outcome)
}

// The call itself, where the thirteen numbers are a reader's state and the others are places. The row is made here, where it is lent: made by a function
// of its own it would be copied once more.
fn call_on(
    input: &[u8],
    memory: &mut [u8],
    output: &mut [u8],
    numbers: &[u64],
    selection: &mut [u8; 39],
    records: &mut [u64],
    state: &mut [u64; 13],
    reader: Reader,
) -> u64
    requires { Unpacking numbers.now state.old reader }
    ensures { left_by result memory.new output.new selection.new records.new state.new
        ≡ stepped input.now (state_in memory.old output.old numbers.now selection.old state.old reader)
        (lent_of selection.old (get_or state.old 11 0)) records.old (get_or state.old 12 0) }
{
    let tags = numbers.len() / 2;
    let places = [Place { from: 0, size: 0 }; 16];
    let mut population = Population { places, tags };
    for i in 0..used_of(tags) {
        let from = numbers[2 * i];
        let size = numbers[2 * i + 1];
        population.places[i] = Place {
            from: from as u32,
            size: size as u32,
        };
    }
    let bench = BenchState {
        reader,
        next: state[10] as usize,
        selected: state[11] as usize,
    };
    let held = state[12] as usize;
    let room = records.len() / 3;
    let listed = call_beside(
        input,
        memory,
        output,
        selection,
        &population,
        bench,
        room,
        held,
    );
    if let Some(record) = listed.failure {
        add_numbers(records, held, record);
    }
    tell(state, listed.called, listed.held)
}

// One call over a crate of tags, for any slices. `places` has two numbers for each tag: where it begins in the memory, and how many bytes it has. `records` has
// three for each record of the list of failures: the cursor, the command's code or the reason of a drop, and the error byte. The thirteen numbers of `state` are
// the cursor, the counts of good answers, error answers and bytes dropped for each of the five reasons, the length of the frame written, the reason of a drop, 0
// for none, the number of the first tag that may still be handed out, 16 for none, how many bytes the selection has, and how many records are held.
// The result is the answer number, or 20 where `state` does not have thirteen numbers, 21 where a count is more than a tally can hold, 22 where `places`
// has an odd number of numbers, or one that no place can hold, 23 where `records` does not have three for each record; under these four nothing changes.
pub fn poldrisk_call(
    input: &[u8],
    memory: &mut [u8],
    output: &mut [u8],
    places: &[u64],
    selection: &mut [u8; 39],
    records: &mut [u64],
    state: &mut [u64],
) -> u64
    ensures { left_by result memory.new output.new selection.new records.new state.new
        ≡ called_on input.now memory.old output.old places.now selection.old records.old
        state.old }
{
    let Some(state) = state.as_mut_array::<13>() else {
        return 20;
    };
    let Some(reader) = reader_of(state) else {
        return 21;
    };
    if !are_places(places) {
        return 22;
    }
    if records.len() % 3 != 0 {
        return 23;
    }
    call_on(
        input, memory, output, places, selection, records, state, reader,
    )
}

// The first `count` records go and the rest move up, and nothing else changes: 16. More than are held, or more held than have room: 15, and nothing changes, as
// where `state` does not have thirteen numbers, 20, or `records` not three for each record, 23.
pub fn poldrisk_acknowledge(records: &mut [u64], state: &mut [u64], count: u64) -> u64
    ensures { list_left_by result records.new state.new ≡ acknowledged_on records.old state.old count }
{
    let Some(state) = state.as_mut_array::<13>() else {
        return 20;
    };
    if records.len() % 3 != 0 {
        return 23;
    }
    let held = state[12] as usize;
    if !may_acknowledge(records.len() / 3, held, count as usize) {
        return 15;
    }
    let left = remove_numbers(records, held, count as usize);
    state[12] = left as u64;
    16
}
