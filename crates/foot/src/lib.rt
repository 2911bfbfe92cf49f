// What ends the failure sheet: what waits, the counts, and the lines for the names.
#![tactic(auto)]

pub mod ending;
