// The reader: 01's answers 1 to 6 of a packed table, and the network of an accepted one on a lent sheet.
// Bytes come in from anywhere: it answers for all of them. What it promises is `read_answer` of crate `table`, and `read_sheet`.
#![tactic(auto)]

mod loading;
mod reading;
mod references;

pub use reading::{check, read};
