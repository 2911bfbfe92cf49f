// The tags' files, read into one memory, one behind the other.
ghost use Rattle.std.specs.Prelude.{◌≡◌, ◌<◌, length, IfOk, IfErr};
ghost use Rattle.frame.specs.Frames.{sum};
ghost use Rattle.io.specs.Counts.{IsPrefixLen};

use crate::{ReadError, read_file};
use std::rt::Files;

// How many tags there are, and how many bytes of the memory their files have taken.
#[derive(Clone, Copy, Debug, Drop)]
pub struct Tags {
    pub count: usize,
    pub length: usize,
}

// One of the files was opened, and a read failed before its end: what was read of all of them.
#[derive(Clone, Copy, Debug, Drop)]
pub struct UnreadableTags {
    pub read: Tags,
}

// A file is read no further than this, so that the seventeen have room behind one another; it is more than one may have.
const ROOM: usize = 3840;

// tag-00.img, tag-01.img and so on
fn name_of(number: usize) -> [u8; 10]
    requires { number < 17 }
{
    let mut name = *b"tag-00.img";
    name[4] = b'0' + (number / 10) as u8;
    name[5] = b'0' + (number % 10) as u8;
    name
}

fn read_into(
    files: &impl Files,
    memory: &mut [u8],
    sizes: &mut [u64],
) -> Result<Tags, UnreadableTags>
    requires memory_len { length memory.old ≡ 65536 }
    requires sizes_len { length sizes.old ≡ 17 }
    ensures count_in_sizes { IfOk result (λ tags. IsPrefixLen tags.count sizes.new) }
    ensures length_in_memory { IfOk result (λ tags. IsPrefixLen tags.length memory.new) }
    ensures length_is_sum { IfOk result (λ tags. tags.length ≡ sum sizes.new) }
    ensures failed_count_in_sizes { IfErr result (λ e. IsPrefixLen e.read.count sizes.new) }
    ensures failed_length_in_memory { IfErr result (λ e. IsPrefixLen e.read.length memory.new) }
    ensures failed_length_is_sum { IfErr result (λ e. e.read.length ≡ sum sizes.new) }
{
    let mut count = 0;
    let mut at = 0;
    let mut readable = true;
    for i in 0..17 {
        let size = match read_file(files, &name_of(i), &mut memory[at..at + ROOM]) {
            Ok(size) => {
                count = i + 1;
                size
            }
            Err(ReadError::NotOpened) => 0,
            Err(ReadError::Unreadable(size)) => {
                count = i + 1;
                readable = false;
                size
            }
        };
        sizes[i] = size as u64;
        at += size;
    }
    let read = Tags { count, length: at };
    if readable {
        Ok(read)
    } else {
        Err(UnreadableTags { read })
    }
}

// "The number of tags is one more than the highest number from 00 to 16 whose file can be opened": a seventeenth is looked for, so that it is seen that they
// are too many. A file below that can't be opened counts as empty; one that can't be read to its end is an error, and the others are read all the same.
pub fn read_tags(
    files: &impl Files,
    memory: &mut [u8; 65536],
    sizes: &mut [u64; 17],
) -> Result<Tags, UnreadableTags>
    ensures count_in_sizes { IfOk result (λ tags. IsPrefixLen tags.count sizes.new) }
    ensures length_in_memory { IfOk result (λ tags. IsPrefixLen tags.length memory.new) }
    ensures length_is_sum { IfOk result (λ tags. tags.length ≡ sum sizes.new) }
    ensures failed_count_in_sizes { IfErr result (λ e. IsPrefixLen e.read.count sizes.new) }
    ensures failed_length_in_memory { IfErr result (λ e. IsPrefixLen e.read.length memory.new) }
    ensures failed_length_is_sum { IfErr result (λ e. e.read.length ≡ sum sizes.new) }
{
    read_into(files, memory, sizes)
}
