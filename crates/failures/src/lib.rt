// The list of failures that the builder signs (request P12): a record for each error answer and each drop, kept beside a call and acknowledged by one of its own.
#![tactic(auto)]

pub mod listing;
pub mod record;
pub mod records;
pub mod triples;
