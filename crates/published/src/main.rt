// Runs every published command on each image that must give one of its published answers, and prints the answer under the heading of the
// source. The stored output was written from the source: it is the published frames.
#![tactic(auto)]

use population::places::{Place, Population};
use report::writing::{Progress, write};

mod commands;
mod tags;

// The file descriptor of standard output.
const STDOUT_FILENO: i32 = 1;

// A buffer of the longest line takes the first line of the report alone: the answer frame, or what the report says of a call that gave none.
fn run(heading: &[u8], tag: [u8; 86], command: &[u8]) {
    let mut image = tag;
    let mut output = [0u8; 136];
    let mut selection = [0u8; 39];
    let mut line = [0u8; 408];
    let mut places = [Place { from: 0, size: 0 }; 16];
    places[0] = Place { from: 0, size: 86 };
    let population = Population { places, tags: 1 };
    let mut progress = Progress::start();
    let Some(used) = write(
        command,
        &mut image,
        &mut output,
        &mut selection,
        &mut line,
        &population,
        &mut progress,
    ) else {
        return;
    };
    io::write_all(STDOUT_FILENO, heading);
    io::write_all(STDOUT_FILENO, &line[..used]);
}

fn inventory() {
    run(
        b"0x22 Single Inventory, Notification\n",
        tags::sample(),
        &commands::INVENTORY,
    );
    run(
        b"0x22 Single Inventory, 0x15 Error Response\n",
        tags::out_of_field(),
        &commands::INVENTORY,
    );
}

fn read() {
    run(
        b"0x39 Read Tag memory, Successful Response\n",
        tags::sample(),
        &commands::READ,
    );
    run(
        b"0x39 Read Tag memory, 0x09 Read Fail Response\n",
        tags::out_of_field(),
        &commands::READ,
    );
    run(
        b"0x39 Read Tag memory, 0x16 Wrong Access Password Error\n",
        tags::other_password(),
        &commands::READ,
    );
    run(
        b"0x39 Read Tag memory, 0xA3 EPC Gen2 Error Response\n",
        tags::short_user(),
        &commands::READ,
    );
}

fn write_words() {
    run(
        b"0x49 Write Tag memory, Successful Response\n",
        tags::sample(),
        &commands::WRITE,
    );
    run(
        b"0x49 Write Tag memory, 0x10 Error Response (the source prints check 0A for 11)\n",
        tags::out_of_field(),
        &commands::WRITE,
    );
    run(
        b"0x49 Write Tag memory, 0x16 Wrong Access Password Error\n",
        tags::other_password(),
        &commands::WRITE,
    );
    run(
        b"0x49 Write Tag memory, 0xB3 EPC Gen2 Error Response\n",
        tags::short_user(),
        &commands::WRITE,
    );
}

fn lock() {
    run(
        b"0x82 Lock Tag Memory, Successful Response\n",
        tags::sample(),
        &commands::LOCK,
    );
    run(
        b"0x82 Lock Tag Memory, 0x13 Error Response\n",
        tags::out_of_field(),
        &commands::LOCK,
    );
    run(
        b"0x82 Lock Tag Memory, 0x16 Wrong Access Password Error\n",
        tags::other_password(),
        &commands::LOCK,
    );
    run(
        b"0x82 Lock Tag Memory, 0xC4 EPC Gen2 Error Response\n",
        tags::permalocked(),
        &commands::LOCK,
    );
}

fn kill() {
    run(
        b"0x65 Kill Tag, Successful Response\n",
        tags::sample(),
        &commands::KILL,
    );
    run(
        b"0x65 Kill Tag, 0x12 Error Response\n",
        tags::out_of_field(),
        &commands::KILL,
    );
    run(
        b"0x65 Kill Tag, 0xD0 EPC Gen2 Error Response\n",
        tags::no_kill_password(),
        &commands::KILL,
    );
}

fn select() {
    run(
        b"0x0C Set Select, Success Response\n",
        tags::sample(),
        &commands::SET_SELECT,
    );
}

fn main() {
    select();
    inventory();
    read();
    write_words();
    lock();
    kill();
}
