// The page that is signed, as a whole: what it begins with, before the rows and the foot of the sheet.
#![tactic(auto)]

pub mod beginning;
