// The program for the sheet: reads commands.bin and the tags' files from the folder that it is run in, and prints the sheet that is signed.
#![tactic(auto)]

ghost use Rattle.std.specs.Prelude.{◌≤◌, length, replicate};
ghost use Rattle.sheet.specs.Itemised.{LeftBySome};
ghost use Rattle.sheet.specs.Sheet.{begun_on};
ghost use Rattle.sheet.specs.Writing.{begun, standing_at};

use console::STDOUT_FILENO;
use console::places::places_of;
use files::tags::{Tags, UnreadableTags, read_tags};
use files::{ReadError, read_file, read_or_empty};
use page::beginning::begin;
use population::places::Population;
use sheet::telling::{Progress, write};

// Piece by piece. Where standard output refuses some of the sheet nothing more is written, so that no sheet ends with its last line and lacks a row.
fn print_rows(
    commands: &[u8],
    memory: &mut [u8],
    output: &mut [u8],
    buffer: &mut [u8],
    population: &Population,
) -> bool
    requires { 1024 ≤ length buffer.old }
    ensures { LeftBySome commands.now (standing_at memory.old population.now (replicate 39 0) output.old begun) memory.new }
{
    let mut selection = [0u8; 39];
    let mut progress = Progress::start();
    while !progress.over {
        let used = write(
            commands,
            memory,
            output,
            &mut selection,
            buffer,
            population,
            &mut progress,
        );
        if !io::write_all(STDOUT_FILENO, &buffer[..used]) {
            return false;
        }
    }
    true
}

// The page of these files: what it begins with, and where there is a sheet its rows and its foot. The calls that are made are those of the run on these files.
fn print(numbered: bool, readable: bool, commands: &[u8], memory: &mut [u8], sizes: &[u64]) -> bool
    ensures { LeftBySome commands.now (begun_on memory.old sizes.now) memory.new }
{
    let mut buffer = io::large_buffer();
    let places = places_of(sizes);
    let begun = begin(
        numbered,
        readable,
        commands,
        memory,
        sizes,
        places,
        &mut buffer,
    );
    let used = begun.used;
    if !io::write_all(STDOUT_FILENO, &buffer[..used]) {
        return false;
    }
    if !begun.rows {
        return true;
    }
    let mut output = [0u8; 136];
    let population = Population {
        places,
        tags: sizes.len(),
    };
    print_rows(commands, memory, &mut output, &mut buffer, &population)
}

// One tag in tag.img, or else a crate. Where no file of a tag can be opened it is one tag, and its file counts as empty. Each buffer has room for more
// than the files may have, so that one that is too long is seen to be.
fn main(rt: HostRuntime) {
    let mut commands = io::large_buffer();
    let mut memory = io::large_buffer();
    let mut sizes = [0u64; 17];
    let length = read_or_empty(&rt, b"commands.bin", &mut commands);
    let one = read_file(&rt, b"tag.img", &mut memory);
    if let Ok(size) = one {
        sizes[0] = size as u64;
    }
    let tags = match one {
        Ok(length) => Ok(Tags { count: 1, length }),
        Err(ReadError::NotOpened) => read_tags(&rt, &mut memory, &mut sizes),
        Err(ReadError::Unreadable(length)) => Err(UnreadableTags {
            read: Tags { count: 1, length },
        }),
    };
    let (Ok(length), Ok(tags)) = (length, tags) else {
        print(false, false, &[], &mut [], &[]);
        return;
    };
    let numbered = one.is_err() && tags.count != 0;
    let count = tags.count.max(1);
    print(
        numbered,
        true,
        &commands[..length],
        &mut memory[..tags.length],
        &sizes[..count],
    );
}
