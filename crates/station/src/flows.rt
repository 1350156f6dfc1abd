// A pass over flows, and the search over them, wherever they are kept: as a table of flows, or as numbers.
ghost use Rattle.std.specs.Prelude.{◌≡◌, ◌*◌, ◌<◌, ◌≤◌, List, length, get_or};
ghost use Rattle.station.specs.Station.{Flow, limit};
ghost use Rattle.station.specs.Offered.{most_flows};
ghost use Rattle.station.specs.Flat.{flows_in};
ghost use Rattle.station.specs.Searching.{off, tally_of, found_by, Searched};

use crate::{Busy, MOST_FLOWS, Refusal};
use search::{Flow, Search, Tally};

// A list of flows, of which each is had by its place.
pub trait Flows {
    ghost flows: { Self → List Flow };

    fn count(&self) -> usize
        ensures { result ≡ length (flows self.now) };

    fn flow(&self, i: usize) -> Flow
        requires { i < length (flows self.now) }
        ensures { result ≡ get_or (flows self.now) i off };
}

// The flows of a lent table.
#[derive(Clone, Copy)]
pub struct Records<'a> {
    pub flows: &'a [Flow],
}

impl<'a> Flows for Records<'a> {
    ghost flows = { λ r. r.flows.now };

    fn count(&self) -> usize {
        self.flows.len()
    }

    fn flow(&self, i: usize) -> Flow {
        self.flows[i]
    }
}

// The first n flows of a lent list of numbers, three a flow.
#[derive(Clone, Copy)]
pub struct Numbers<'a> {
    pub list: &'a [u64],
    pub n: usize,
    ghost whole: { n * 3 ≤ length list.now },
}

impl<'a> Flows for Numbers<'a> {
    ghost flows = { λ s. flows_in s.list.now s.n };

    #[tactic(auto, using(crate::proofs::FlatLaws::length_flows_in))]
    fn count(&self) -> usize {
        self.n
    }

    #[tactic(auto, using(crate::proofs::FlatLaws::length_flows_in, crate::proofs::FlatLaws::flow_at), unfolding(crate::specs::Flat::flow_in))]
    fn flow(&self, i: usize) -> Flow {
        Flow {
            period: self.list[i * 3],
            jitter: self.list[i * 3 + 1],
            cost: self.list[i * 3 + 2],
        }
    }
}

// What a pass finds; none where a flow is out of range.
// By itself its loop is compiled to some 0.8 of the time that it takes where callers have it inlined.
#[inline(never)]
fn sweep<F: Flows>(flows: &F, d: u64) -> Option<Tally>
    requires few { length (F.flows flows.now) ≤ most_flows }
    requires low { d < limit }
    ensures { result ≡ tally_of (F.flows flows.now) d }
{
    let mut tally = Tally::empty();
    for i in 0..flows.count() {
        // `?` would leave code of std's outside the program of order/specs/There, which has the code of these crates alone.
        match tally.add(flows.flow(i), d) {
            Some(more) => tally = more,
            None => return None,
        }
    }
    Some(tally)
}

// What a search has found. While it rises no length has served; while it falls its best is the best so far.
#[tactic(auto, unfolding(crate::specs::Searching::found_by))]
fn found(search: Search) -> Result<Busy, Refusal>
    ensures { result ≡ found_by search }
{
    match search {
        Search::Falling { length, best, .. } | Search::Served { length, best } => Ok(Busy {
            length,
            figure: best.figure,
            span: best.span,
        }),
        Search::Rising { .. } | Search::Endless => Err(Refusal::Endless),
        Search::OutOfRange => Err(Refusal::OutOfRange),
    }
}

// The search over flows.
pub fn searched<F: Flows>(flows: &F) -> Result<Busy, Refusal>
    ensures { Searched (F.flows flows.now) result }
{
    if MOST_FLOWS < flows.count() {
        return Err(Refusal::OutOfRange);
    }
    let mut search = Search::begin();
    while let Some(d) = search.span() {
        search = search.turn(sweep(flows, d));
    }
    found(search)
}
