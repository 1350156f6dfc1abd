// Runs the writer, the unpacker and the reader on 01's number 10 and whole case, at every limit of every field and one past it, and on each kind of refusal.
// It writes one line a case; the lines are compared with stdout.
#![tactic(auto)]

mod fields;
mod lengths;
mod print;
mod refusals;
mod routes;
mod whole;

use console::Heedless;

fn main() {
    let _ = whole::written(&Heedless);
    let _ = fields::limits(&Heedless);
    let _ = lengths::lengths(&Heedless);
    let _ = routes::routes(&Heedless);
    let _ = refusals::rooms(&Heedless);
    let _ = refusals::writes(&Heedless);
    let _ = refusals::too_short(&Heedless);
}
