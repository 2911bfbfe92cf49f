// Up to sixteen tags, each with its place in one lent memory, and the selection that says which of them a command is for.
#![tactic(auto)]

pub mod executing;
pub mod lowest;
pub mod matching;
pub mod places;
pub mod selection;
