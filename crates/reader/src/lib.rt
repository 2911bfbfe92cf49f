// The reader's own state: where it stands in the input, and what it has counted (document 01, "Answer numbers of a call"); and how a call of it ends.
#![tactic(auto)]

pub mod outcome;
pub mod state;
pub mod tally;
