// One pass over the flows, for a span of d ticks: one flow more, and whether each is in range.
// The ranges bound what a flow brings, so that no sum wraps.
ghost use Rattle.std.specs.Prelude.{◌≡◌, true, ◌&&◌, ◌<◌, ◌-◌, ◌^◌, max, eqb};
ghost use Rattle.base.specs.Pick.{pick};
ghost use Rattle.search.specs.Flows.{in_range};
ghost use Rattle.search.specs.Spans.{limit};
ghost use Rattle.search.specs.Pass.{evenly, taken, empty_tally, with_flow, add_to};

use crate::compare::lesser;
use crate::turns::{CYCLE, LIMIT};

// Work of 2^63 or more is not added to; 1,024 flows in range bring far less within the limit.
const MOST_WORK: u64 = 9_223_372_036_854_775_808;

// What one kind of message brings: at most one in a period, save that each may come up to a jitter late.
#[derive(Clone, Copy)]
pub struct Flow {
    pub period: u64,
    pub jitter: u64,
    pub cost: u64,
}

impl Flow {
    // Whether a flow is in range.
    #[tactic(auto, unfolding(crate::specs::Flows::in_range))]
    fn in_range(self) -> bool
        ensures { result ≡ in_range self }
    {
        matches!(self.period, 12_500..=125_000_000)
            && self.jitter <= 2_000_000_000
            && matches!(self.cost, 1..=4_000_000_000)
    }
}

// What a pass finds of flows in range.
#[derive(Clone, Copy)]
pub struct Tally {
    // the work that they bring
    pub work: u64,
    // the tick of the last arrival
    pub last: u64,
    // whether each period divides the cycle; only a pass for a span of 0 looks
    pub even: bool,
}

impl Tally {
    // The tally of no flows.
    pub fn empty() -> Tally
        ensures { result ≡ empty_tally }
    {
        Tally {
            work: 0,
            last: 0,
            even: true,
        }
    }

    // Adds a flow to the tally of those before it; none where it is out of range, or the span or the work so far.
    #[tactic(auto, unfolding(crate::specs::Pass::add_to, crate::specs::Pass::taken, crate::specs::Spans::limit))]
    pub fn add(self, flow: Flow, d: u64) -> Option<Tally>
        ensures { result ≡ add_to self flow d }
    {
        if d < LIMIT && self.work < MOST_WORK && flow.in_range() {
            Some(self.with_flow(flow, d))
        } else {
            None
        }
    }

    #[tactic(auto, using(crate::proofs::PassLaws::taken_was), unfolding(crate::specs::Pass::with_flow, crate::specs::Flows::most, crate::specs::Pass::last_of))]
    fn with_flow(self, flow: Flow, d: u64) -> Tally
        requires { taken self flow d ≡ true }
        ensures { result ≡ with_flow self flow d }
    {
        let reach = d + flow.jitter;
        let q = reach / flow.period;
        Tally {
            work: self.work + (q + 1) * flow.cost,
            last: later(self.last, reach % flow.period, d),
            even: self.still_even(flow.period, d),
        }
    }

    // Whether a period divides the cycle too. Later passes do not pay for the division.
    #[tactic(auto, unfolding(crate::specs::Pass::evenly, crate::specs::Pass::cycle))]
    fn still_even(self, period: u64, d: u64) -> bool
        requires { 0 < period }
        ensures { result ≡ pick (eqb d 0) (self.even && evenly period) self.even }
    {
        if d == 0 {
            self.even && CYCLE % period == 0
        } else {
            self.even
        }
    }
}

// The later of the last arrival so far and the one that comes this rest before tick d, at tick 0 where the rest is longer.
// One test serves for both: whether a difference stops at 0 goes now one way and now the other, from flow to flow.
#[tactic(auto, unfolding(crate::specs::Spans::limit))]
fn later(last: u64, rest: u64, d: u64) -> u64
    requires short { rest < 2 ^ 62 }
    requires low { d < limit }
    ensures { result ≡ max last (d - rest) }
{
    if lesser(last, LIMIT) + rest < d {
        d - rest
    } else {
        last
    }
}
