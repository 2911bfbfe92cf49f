// One Gen2 tag, held as an image of its memory (document 01, "The image", "Lock bits" and "The commands").
#![tactic(auto)]

pub mod acts;
mod admission;
pub mod commands;
pub mod errors;
mod lock_acts;
pub mod locks;
mod new_locks;
pub mod parsing;
mod regions;
mod word_acts;
