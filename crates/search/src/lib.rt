// The search for the least length that serves and the greatest excess below it, over any work that a longer span brings no less of.
// All of it is by value: whoever has the flows walks over them, adds each to a tally and hands the tally to a turn. Every function answers for every input.
#![tactic(auto)]

mod compare;
mod pass;
mod turns;

pub use compare::less;
pub use pass::{Flow, Tally};
pub use turns::{Best, Search};
