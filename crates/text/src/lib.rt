// Text put into a lent buffer: words, spaces, numbers in hex and decimal, and the lines that programs share. Each is a method of the writer, which keeps the
// buffer and the place behind what was put; where a piece has no room nothing is put, and the place stays.
#![tactic(auto)]

pub mod counts;
pub mod digits;
pub mod words;
pub mod writer;
