// What the failure sheet calls a command and an error answer: the two of its columns that are words. Each is put where the longest has room, and where
// not nothing is.
#![tactic(auto)]

pub mod commands;
pub mod errors;
