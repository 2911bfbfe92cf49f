// One call over a crate of up to sixteen tags: what was decided is done, on what the caller lends.
#![tactic(auto)]

pub mod calling;
