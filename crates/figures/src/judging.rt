// From the bytes of a table to its figures or its refusal.
// The reader gives the answers 1 to 6; the figures are computed once for each sub-link and port, and give 7 to 10.
ghost use Rattle.std.specs.Prelude.{◌≡◌, IfOk};
ghost use Rattle.table.specs.Refusals.{said};
ghost use Rattle.sheet.specs.Sheet.{network_on};
ghost use Rattle.figures.specs.Figures.{no_figures, Figured};
ghost use Rattle.figures.specs.Judging.{judged, Computed};

use crate::flows::Flows;
use crate::found::Figures;
use crate::{counting, links, ports, queues};
use sheet::{Accepted, Sheet};
use table::Refusal;

// On acceptance the sheet holds the network, and the figures are found; a refusal leaves both blank.
pub fn figures(
    table: &[u8],
    room: usize,
    sheet: &mut Sheet,
    found: &mut Figures,
) -> Result<(), Refusal>
    ensures { Figured table.now room (said result) sheet.new found.new }
{
    found.clear();
    if let Err(refused) = reader::read(table, sheet) {
        return Err(refused);
    }
    let judged = judge(Accepted::new(sheet), room, found);
    if let Err(_) = judged {
        sheet.clear();
        found.clear();
    }
    judged
}

// The answers 7 to 10.
fn judge(net: Accepted<'_>, room: usize, found: &mut Figures) -> Result<(), Refusal>
    requires { found.old ≡ no_figures }
    ensures answer { said result ≡ judged (network_on net.entry.sheet.now) room }
    ensures figures { IfOk result (λ _. Computed (network_on net.entry.sheet.now) found.new) }
{
    if let Err(refusal) = links::in_time(net) {
        return Err(refusal);
    }
    if let Err(refusal) = counting::rows_fit(net, room) {
        return Err(refusal);
    }
    let mut flows = Flows::none();
    if let Err(refusal) = queues::all_queues(net, &mut flows, &mut found.queues) {
        return Err(refusal);
    }
    links::mux_waits(net, &mut found.waits);
    ports::all_ports(net, &found.waits, &mut flows, &mut found.hops)
}
