// The machine: what a call over a crate of up to sixteen tags is to do. It is decided here, and nothing is changed.
#![tactic(auto)]

pub mod absent;
pub mod deciding;
