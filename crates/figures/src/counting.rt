// How many rows there are: the destinations of each VL are counted in one walk over the hops, and added up over the streams.
// Gives 01's answer 8.
ghost use Rattle.std.specs.Prelude.{◌≡◌, ◌≤◌, ◌*◌, length};
ghost use Rattle.base.specs.Tabulate.{tabulate};
ghost use Rattle.layout.specs.Limits.{limits};
ghost use Rattle.network.specs.Views.{leaves_of};
ghost use Rattle.rows.specs.Rows.{rows_of};
ghost use Rattle.sheet.specs.Sheet.{network_on};
ghost use Rattle.answers.specs.Analysis.{answer8};
ghost use Rattle.table.specs.Refusals.{given};

use layout::sizes::{MOST_ROWS, MOST_VLS};
use sheet::Accepted;
use table::Refusal;

// The numbers of a result row: stream, hop, queue, worst, best, jitter.
pub const ROW: usize = 6;

// The destinations of each VL.
fn destinations(net: Accepted<'_>) -> [usize; MOST_VLS]
    ensures { result ≡ tabulate (λ v. length (leaves_of (network_on net.entry.sheet.now) v)) limits.vls }
{
    let leaves = net.sheet.leaves();
    let mut counts = [0; MOST_VLS];
    for h in 0..net.sheet.hops() {
        if leaves[h] {
            counts[net.sheet.hop_row(h).vl] += 1;
        }
    }
    counts
}

fn row_count(net: Accepted<'_>) -> usize
    ensures is { result ≡ length (rows_of (network_on net.entry.sheet.now)) }
    ensures most { result ≤ 4095 * 4095 }
{
    let counts = destinations(net);
    let mut count = 0;
    for s in 0..net.sheet.streams() {
        count += counts[net.sheet.stream_row(s).vl];
    }
    count
}

// 8: more rows than a result may have, or than there is room for.
pub fn rows_fit(net: Accepted<'_>, room: usize) -> Result<(), Refusal>
    ensures { given result ≡ answer8 (network_on net.entry.sheet.now) room }
{
    let count = row_count(net);
    if MOST_ROWS < count {
        return Err(Refusal::TooManyRows);
    }
    if room < ROW * count {
        return Err(Refusal::ResultTooShort);
    }
    Ok(())
}
