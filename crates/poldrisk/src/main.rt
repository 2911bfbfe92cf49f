// The program of document 01: reads commands.bin and tag.img from the folder that it is run in, and prints the report.
#![tactic(auto)]

use files::read_or_empty;

// Each buffer has room for more than a file may have, so that one that is too long is seen to be.
fn main(rt: HostRuntime) {
    let mut commands = io::large_buffer();
    let mut image = io::buffer();
    let length = read_or_empty(&rt, b"commands.bin", &mut commands);
    let size = read_or_empty(&rt, b"tag.img", &mut image);
    let (Ok(length), Ok(size)) = (length, size) else {
        console::print(false, &[], &mut [], &[]);
        return;
    };
    console::print(
        true,
        &commands[..length],
        &mut image[..size],
        &[size as u64],
    );
}
