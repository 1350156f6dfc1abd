// The analysis of a packed table: its result rows, or 01's refusal 1 to 10.
// The table comes in from anywhere: it answers for all bytes, and leaves zeros where it refuses.
#![tactic(auto)]

mod analysing;
mod results;

pub use analysing::analyse;
