// Carrying out a command on one tag's image: the answer frame, and then the store (document 01, "The commands").
#![tactic(auto)]

mod answers;
pub mod execute;
mod putting;
mod storing;
