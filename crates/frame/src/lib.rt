// Frames of the reader protocol (document 01, "The frame" and "Finding a command").
#![tactic(auto)]

pub mod bytes;
pub mod check;
pub mod closing;
pub mod copying;
pub mod finding;
pub mod layout;
