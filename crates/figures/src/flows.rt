// The flows of a queue or a port, gathered for the station.
// The list is lent and not handed over, so that a port of few flows costs no more than those.
ghost use Rattle.std.specs.Prelude.{◌≡◌, ◌≤◌, ◌<◌, ◌∷◌, [], ◌++◌, List, length, take, true};
ghost use Rattle.station.specs.declared.TheConstants.{MOST_FLOWS};
ghost use Rattle.station.specs.Station.{Flow as FlowIs};
ghost use Rattle.station.specs.Offered.{most_flows, offered};
ghost use Rattle.figures.specs.Gathering.{figure_in};

use station::{Flow, MOST_FLOWS};
use std::marker::Model;

const NO_FLOW: Flow = Flow {
    period: 0,
    jitter: 0,
    cost: 0,
};

// A queue has at most as many flows as there are streams, a port as there are VLs, and the station takes as many.
#[derive(Drop)]
pub struct Flows {
    list: [Flow; MOST_FLOWS],
    count: usize,
}

impl Model for Flows {
    ghost Value = { List FlowIs };

    ghost view = { λ f. take f.count f.list };

    ghost invariant = { λ f. f.count ≤ MOST_FLOWS };
}

impl Flows {
    pub fn none() -> Flows
        ensures { result ≡ [] }
    {
        Flows {
            list: [NO_FLOW; MOST_FLOWS],
            count: 0,
        }
    }

    pub fn clear(&mut self)
        ensures { self.new ≡ [] }
    {
        self.count = 0;
    }

    pub fn push(&mut self, flow: Flow)
        requires { length self.old < most_flows }
        ensures { self.new ≡ self.old ++ flow ∷ [] }
    {
        self.list[self.count] = flow;
        self.count += 1;
    }

    // The station's figure of them, where they have a busy length.
    pub fn figure(&self) -> Option<u64>
        requires { offered self.now ≡ true }
        ensures { result ≡ figure_in self.now }
    {
        match station::station(&self.list[..self.count]) {
            Ok(busy) => Some(busy.figure),
            Err(_) => None,
        }
    }
}
