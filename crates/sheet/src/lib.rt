// The sheet that is signed: every failure of a run, item by item.
#![tactic(auto)]

pub mod items;
pub mod telling;
