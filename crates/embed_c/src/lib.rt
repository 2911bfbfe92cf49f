// The bench for C and Rust: the two functions of `embed` under names that a linker finds. A slice passes as a pointer and a length, the selection's 39 bytes
// as a pointer.
#![tactic(auto)]

ghost use Rattle.std.specs.Prelude.{◌≡◌};
ghost use Rattle.embed.specs.Acknowledged.{list_left_by, acknowledged_on};
ghost use Rattle.embed.specs.Packed.{left_by, called as called_on};

// One call over a crate of tags, for any slices. What the numbers of `places`, `records` and `state` are, and the result, is said at the function that is called.
#[unsafe(no_mangle)]
pub extern "C" fn poldrisk_call(
    input: &[u8],
    memory: &mut [u8],
    output: &mut [u8],
    places: &[u64],
    selection: &mut [u8; 39],
    records: &mut [u64],
    state: &mut [u64],
) -> u64
    ensures { left_by result memory.new output.new selection.new records.new state.new
        ≡ called_on input.now memory.old output.old places.now selection.old records.old
        state.old }
{
    embed::poldrisk_call(input, memory, output, places, selection, records, state)
}

// Acknowledges the first `count` records of the list.
#[unsafe(no_mangle)]
pub extern "C" fn poldrisk_acknowledge(records: &mut [u64], state: &mut [u64], count: u64) -> u64
    ensures { list_left_by result records.new state.new ≡ acknowledged_on records.old state.old count }
{
    embed::poldrisk_acknowledge(records, state, count)
}
