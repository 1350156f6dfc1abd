// One turn of the search: it rises to the least length that serves and falls to the greatest excess.
// Each turn is given what a pass has found: the work that a span brings, and the tick of the last arrival in it.
ghost use Rattle.std.specs.Prelude.{◌≡◌, ◌-◌, min};
ghost use Rattle.search.specs.Turn.{improved, fallen, turned_down, risen, begun, span_of, turn_of};

use crate::compare::{less, lesser};
use crate::pass::Tally;

// The longest length.
pub const LIMIT: u64 = 125_000_000;

// 128 ms: every gap of a VL divides it, so what the flows of a port bring grows by as much in each cycle as in the one before.
pub const CYCLE: u64 = 1_600_000;

// The greatest work less span that was found, and the least span that gives it.
#[derive(Clone, Copy)]
pub struct Best {
    pub figure: u64,
    pub span: u64,
}

impl Best {
    // What is best once a pass has found its work, which has been there since the last arrival.
    #[tactic(auto, unfolding(crate::specs::Turn::improved))]
    fn better(self, found: Tally) -> Best
        ensures { result ≡ improved self found.work found.last }
    {
        let v = less(found.work, found.last);
        if self.figure < v {
            Best {
                figure: v,
                span: found.last,
            }
        } else if v < self.figure {
            self
        } else {
            Best {
                figure: self.figure,
                span: lesser(found.last, self.span),
            }
        }
    }
}

// Where the search stands.
#[derive(Clone, Copy)]
pub enum Search {
    // on the way up: no length up to this span serves, and it is the span of the next pass; whether the work is even is known once a span of 0 is passed
    Rising { span: u64, best: Best, even: bool },
    // on the way down, below a length: no longer span than that of the next pass is left
    Falling { length: u64, span: u64, best: Best },
    // at its end: a length, with the greatest excess below it and the least span that gives it; no length; a flow that is out of range
    Served { length: u64, best: Best },
    Endless,
    OutOfRange,
}

impl Search {
    #[tactic(auto, unfolding(crate::specs::Turn::begun))]
    pub fn begin() -> Search
        ensures { result ≡ begun }
    {
        Search::Rising {
            span: 0,
            best: Best { figure: 0, span: 0 },
            even: false,
        }
    }

    // The span of the next pass; none where the search is at its end.
    #[tactic(auto, unfolding(crate::specs::Turn::span_of))]
    pub fn span(self) -> Option<u64>
        ensures { result ≡ span_of self }
    {
        match self {
            Search::Rising { span, .. } | Search::Falling { span, .. } => Some(span),
            Search::Served { .. } | Search::Endless | Search::OutOfRange => None,
        }
    }

    // One turn, given what a pass of its span has found: none where a flow is out of range. A search at its end stays there.
    #[tactic(auto, unfolding(crate::specs::Turn::turn_of, crate::specs::Turn::seeded))]
    pub fn turn(self, found: Option<Tally>) -> Search
        ensures { result ≡ turn_of self found }
    {
        match (self, found) {
            // the span of 0 is what the way down starts from, and its pass says whether the work is even
            (Search::Rising { span: 0, .. }, Some(tally)) => rise(
                0,
                Best {
                    figure: tally.work,
                    span: 0,
                },
                tally.even,
                tally,
            ),
            (Search::Rising { span, best, even }, Some(tally)) => rise(span, best, even, tally),
            (Search::Falling { length, best, .. }, Some(tally)) => fall(length, best, tally),
            (Search::Rising { .. } | Search::Falling { .. }, None) => Search::OutOfRange,
            (Search::Served { .. } | Search::Endless | Search::OutOfRange, _) => self,
        }
    }
}

// The longest span that can still be better. A shorter span brings no more than this work, so beyond work - figure it gives less than the figure; and from the last arrival on all spans are known.
fn next_span(found: Tally, figure: u64) -> u64
    ensures { result ≡ min (found.work - figure) (found.last - 1) }
{
    lesser(less(found.work, figure), less(found.last, 1))
}

// One turn of the way down: no span from the last arrival on is better than what better gives.
#[tactic(auto, unfolding(crate::specs::Turn::fallen))]
fn fall(length: u64, best: Best, found: Tally) -> Search
    ensures { result ≡ fallen length best found.work found.last }
{
    let best = best.better(found);
    if found.work <= best.figure {
        Search::Served { length, best }
    } else {
        Search::Falling {
            length,
            span: next_span(found, best.figure),
            best,
        }
    }
}

// The least length is found, and the way down begins. Where the work is even, each cycle in a least length above a cycle brings less than a cycle, so no span of a cycle or more is as good as the one that is a cycle shorter: the spans below a cycle say all.
#[tactic(auto, unfolding(crate::specs::Turn::turned_down, crate::specs::Pass::cycle))]
fn turn_down(length: u64, best: Best, even: bool, found: Tally) -> Search
    ensures { result ≡ turned_down length best even found.work found.last }
{
    if even && CYCLE < length {
        Search::Falling {
            length,
            span: CYCLE - 1,
            best,
        }
    } else {
        fall(length, best, found)
    }
}

// One turn of the way up: no length up to d serves, nor does one below the work of a span of d.
#[tactic(auto, unfolding(crate::specs::Turn::risen, crate::specs::Spans::limit))]
fn rise(d: u64, best: Best, even: bool, found: Tally) -> Search
    ensures { result ≡ risen d best even found.work found.last }
{
    if LIMIT <= d {
        Search::Endless
    } else if found.work <= d + 1 {
        turn_down(d + 1, best, even, found)
    } else if LIMIT < found.work {
        Search::Endless
    } else {
        Search::Rising {
            span: found.work - 1,
            best,
            even,
        }
    }
}
