// The report of document 01: what the program writes of a run of calls, in pieces that fit a lent buffer.
#![tactic(auto)]

pub mod limits;
pub mod lines;
pub mod writing;
