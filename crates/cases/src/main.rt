// Runs whose answers were written down from document 01, apart from the code; a script laid out their bytes and checks. Each heading is
// followed by the report.
#![tactic(auto)]

use console::STDOUT_FILENO;
use samples::{FALSE_HEADER, FILLER, HISTORY, LONGEST, SAMPLE, TRUNCATED};

// One tag, which has all of the memory.
fn run(heading: &[u8], commands: &[u8], image: &mut [u8]) {
    io::write_all(STDOUT_FILENO, heading);
    let sizes = [image.len() as u64; 1];
    console::print(true, commands, image, &sizes);
}

fn on_sample(heading: &[u8], commands: &[u8]) {
    let mut image = SAMPLE;
    run(heading, commands, &mut image);
}

// 376 commands of 87 bytes and one of 56 are 32,768 bytes.
fn fill(commands: &mut [u8; 32768]) {
    let (longest, filler) = commands.split_at_mut(32712);
    for command in longest.chunks_exact_mut(87) {
        command.copy_from_slice(&LONGEST);
    }
    filler.copy_from_slice(&FILLER);
}

fn bad_images() {
    let mut image = SAMPLE;
    image[1] = 2;
    run(b"An image of format 2\n", &FALSE_HEADER, &mut image);
    run(b"An empty image\n", &FALSE_HEADER, &mut image[..0]);
}

fn long_inputs() {
    let mut commands = [0u8; 32768];
    fill(&mut commands);
    on_sample(b"Exactly 32,768 bytes\n", &commands);
    on_sample(b"32,769 bytes\n", &[0u8; 32769]);
    let mut image = [0u8; 2049];
    run(b"An image of 2,049 bytes\n", &TRUNCATED, &mut image);
}

// The bytes 0 to 250 over and over. No frame is among them: BB is followed by BC.
fn fill_with_noise(commands: &mut [u8]) {
    for (i, byte) in commands.iter_mut().enumerate() {
        *byte = (i % 251) as u8;
    }
}

// A line of eight bytes for each byte dropped makes more than 65,536 bytes, which is the most that is printed at once.
fn long_report() {
    let mut commands = [0u8; 9036];
    fill_with_noise(&mut commands);
    on_sample(b"A report of several pieces\n", &commands);
}

// Tags of 86 bytes, one behind the other. The first two are the sample tag.
fn on_crate(heading: &[u8], commands: &[u8], sizes: &[u64]) {
    let mut memory = [0u8; 1462];
    memory[..86].copy_from_slice(&SAMPLE);
    memory[86..172].copy_from_slice(&SAMPLE);
    io::write_all(STDOUT_FILENO, heading);
    console::print(true, commands, &mut memory, sizes);
}

fn crates() {
    on_crate(b"No tag at all\n", &TRUNCATED, &[0u64; 0]);
    on_crate(b"Two tags\n", &TRUNCATED, &[86u64; 2]);
    on_crate(
        b"Two tags and one that is no good image\n",
        &TRUNCATED,
        &[86u64; 3],
    );
    on_crate(b"Seventeen tags\n", &TRUNCATED, &[86u64; 17]);
    on_crate(
        b"Two tags of which one is too long\n",
        &TRUNCATED,
        &[2049u64; 2],
    );
}

fn main() {
    on_sample(b"A false header with a real frame inside\n", &FALSE_HEADER);
    on_sample(b"A command that breaks off\n", &TRUNCATED);
    bad_images();
    on_sample(
        b"Later answers depend on what earlier commands stored\n",
        &HISTORY,
    );
    long_inputs();
    long_report();
    crates();
}
