// A file, read into a lent buffer; and the files of a crate of tags.
#![tactic(auto)]

ghost use Rattle.std.specs.Prelude.{◌≤◌, length, IfSome, IfOk, IfErr};
ghost use Rattle.files.specs.Reads.{before_failure};
ghost use Rattle.io.specs.Counts.{IsPrefixLen};

use std::fs::File;
use std::io;
use std::io::ErrorKind;
use std::rt::Files;

pub mod tags;

// Why not all bytes of a file are handed over.
#[derive(Clone, Copy, PartialEq, Eq, Debug, Drop)]
pub enum ReadError {
    // It can't be opened; the programs count such a file as empty.
    NotOpened,
    // It was opened, and a read failed before its end: so many bytes stand at the start of the buffer.
    Unreadable(usize),
}

// One read, and `None` where it fails. Where a signal interrupts it before it hands over a byte it is made again, a hundred times at most, so that it ends.
fn read_some(file: &mut impl io::Read, buffer: &mut [u8]) -> Option<usize>
    ensures { IfSome result (λ n. n ≤ length buffer.new) }
{
    for _ in 0..100 {
        match file.read(buffer) {
            Ok(got) => return Some(got),
            Err(e) if e.kind() == ErrorKind::Interrupted => {}
            Err(_) => break,
        }
    }
    None
}

#[tactic(auto, unfolding(crate::specs::Reads::before_failure))]
fn read_open(file: &mut impl io::Read, buffer: &mut [u8]) -> Result<usize, ReadError>
    ensures read { IfOk result (λ n. IsPrefixLen n buffer.new) }
    ensures failed { IfErr result (λ e. IsPrefixLen (before_failure e) buffer.new) }
{
    let mut length = 0;
    while length < buffer.len() {
        let Some(more) = read_some(file, &mut buffer[length..]) else {
            return Err(ReadError::Unreadable(length));
        };
        if more == 0 {
            break;
        }
        length += more;
    }
    Ok(length)
}

// The library opens a path that is UTF-8 text, and no other.
fn open<R: Files>(files: &R, path: &[u8]) -> Option<R::File> {
    let path = str::from_utf8(path).ok()?;
    File::open(files, path).ok()
}

// How many bytes stand at the start of the buffer then. A file that is longer than the buffer is read as far as the buffer goes.
#[tactic(auto, unfolding(crate::specs::Reads::before_failure))]
pub fn read_file(files: &impl Files, path: &[u8], buffer: &mut [u8]) -> Result<usize, ReadError>
    ensures read { IfOk result (λ n. IsPrefixLen n buffer.new) }
    ensures failed { IfErr result (λ e. IsPrefixLen (before_failure e) buffer.new) }
{
    match open(files, path) {
        Some(mut file) => read_open(&mut file, buffer),
        None => Err(ReadError::NotOpened),
    }
}

// The same for a program that counts a file that can't be opened as empty.
pub fn read_or_empty(files: &impl Files, path: &[u8], buffer: &mut [u8]) -> Result<usize, ReadError>
    ensures read { IfOk result (λ n. IsPrefixLen n buffer.new) }
    ensures failed { IfErr result (λ e. IsPrefixLen (before_failure e) buffer.new) }
{
    match read_file(files, path, buffer) {
        Err(ReadError::NotOpened) => Ok(0),
        read => read,
    }
}
