// The rows of the sheet that is signed: one for each item, with its number, its bytes, its command and its result.
#![tactic(auto)]

pub mod columns;
pub mod drops;
pub mod items;
pub mod row;
