// The head of the sheet that is signed.
#![tactic(auto)]

pub mod commands;
pub mod files;
pub mod writing;
