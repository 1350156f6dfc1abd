// The two doors of the station: flows as numbers, three a flow, and flows as records, of which the first n are lent as a slice.
ghost use Rattle.std.specs.Prelude.{◌≡◌, ◌≤◌, take};
ghost use Rattle.station.specs.Offered.{station_says};
ghost use Rattle.station.specs.Answer.{said};

use crate::plan::BUILT;
use station::{Busy, Flow, Refusal};

// The numbers of flows: of each its period, its jitter and its cost.
pub fn numbers(flows: &[Flow; BUILT]) -> [u64; 3 * BUILT] {
    let mut list = [0; 3 * BUILT];
    for (i, flow) in flows.iter().enumerate() {
        list[i * 3] = flow.period;
        list[i * 3 + 1] = flow.jitter;
        list[i * 3 + 2] = flow.cost;
    }
    list
}

// What the station says of the first n flows, lent as a slice.
pub fn told(flows: &[Flow; BUILT], n: usize) -> Result<Busy, Refusal>
    requires { n ≤ 1025 }
    ensures { said result ≡ station_says (take n flows.now) }
{
    station::station(&flows[..n])
}
