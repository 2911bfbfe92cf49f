// The program for a crate of tags: reads commands.bin and the files tag-00.img to tag-15.img from the folder that it is run in, and prints the report.
#![tactic(auto)]

use files::read_or_empty;
use files::tags::read_tags;

// Each buffer has room for more than the files may have, so that one that is too long is seen to be.
fn main(rt: HostRuntime) {
    let mut commands = io::large_buffer();
    let mut memory = io::large_buffer();
    let mut sizes = [0u64; 17];
    let length = read_or_empty(&rt, b"commands.bin", &mut commands);
    let tags = read_tags(&rt, &mut memory, &mut sizes);
    let (Ok(length), Ok(tags)) = (length, tags) else {
        console::print(false, &[], &mut [], &[]);
        return;
    };
    console::print(
        true,
        &commands[..length],
        &mut memory[..tags.length],
        &sizes[..tags.count],
    );
}
