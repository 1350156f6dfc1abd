// From the bytes of a packed table to its figures: the mux wait of each VL, the queue figure of each sub-link and the figure of each hop, or 01's refusal 1 to 10.
// The table comes in from anywhere: it answers for all bytes, and leaves zeros where it refuses.
// Only the language and this repository's own functions are called: no `?`, `find`, `fill` or `saturating_sub`, as std's code is not at hand
// where a program is put together from the code (`order/proofs/There`).
#![tactic(auto)]

mod counting;
mod flows;
mod found;
mod frames;
mod judging;
mod links;
mod ports;
mod queues;

pub use counting::ROW;
pub use found::Figures;
pub use frames::{line, packets};
pub use judging::figures;
