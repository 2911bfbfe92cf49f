// A Gen2 tag's memory as an image (document 01, "The image"): its header, its banks, and what makes it good.
#![tactic(auto)]

pub mod crc_word;
pub mod good;
pub mod header;
