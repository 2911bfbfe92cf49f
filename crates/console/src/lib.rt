// The report of a run on standard output.
#![tactic(auto)]

ghost use Rattle.std.specs.Prelude.{◌≤◌, length};
ghost use Rattle.console.specs.Console.{Ran, RanFrom, Noticed};

use places::lay_out;
use population::places::Population;
use report::limits::{Unfit, judge, write_notice};
use report::writing::{Progress, write};

pub mod places;

// The file descriptor of standard output.
pub const STDOUT_FILENO: i32 = 1;

// Piece by piece. Where standard output refuses some of the report, nothing more is written, so that no report ends with its counts and
// lacks a line.
fn print_pieces(
    commands: &[u8],
    memory: &mut [u8],
    output: &mut [u8],
    buffer: &mut [u8],
    population: &Population,
) -> bool
    requires { 408 ≤ length buffer.old }
    ensures { RanFrom commands.now memory.old population.now output.old memory.new result }
{
    let mut selection = [0u8; 39];
    let mut progress = Progress::start();
    while !progress.over {
        let Some(used) = write(
            commands,
            memory,
            output,
            &mut selection,
            buffer,
            population,
            &mut progress,
        ) else {
            return false;
        };
        if !io::write_all(STDOUT_FILENO, &buffer[..used]) {
            return false;
        }
    }
    true
}

// The line of files that are not run, by way of a lent buffer. The result says whether standard output took it.
fn print_notice(files: Result<(), Unfit>, buffer: &mut [u8]) -> bool
    ensures { Noticed files buffer.old buffer.new }
{
    let used = write_notice(files, buffer);
    io::write_all(STDOUT_FILENO, &buffer[..used])
}

// Prints the report of these commands on the tags in this memory, one behind the other: `sizes` says how many bytes each has. `readable` says whether all
// files were read to their ends. The result says whether standard output took all of it.
pub fn print(readable: bool, commands: &[u8], memory: &mut [u8], sizes: &[u64]) -> bool
    ensures { Ran readable commands.now memory.old sizes.now memory.new result }
{
    let mut buffer = io::large_buffer();
    let files = judge(readable, commands.len(), sizes);
    match files {
        Ok(()) => {
            let mut output = [0u8; 136];
            let population = Population {
                places: lay_out(sizes),
                tags: sizes.len(),
            };
            print_pieces(commands, memory, &mut output, &mut buffer, &population)
        }
        Err(_) => print_notice(files, &mut buffer),
    }
}
