// The result rows: for each stream in order, each hop of its VL that is nobody's parent, in order.
// The figures are computed before; a row only adds them up along its route.
ghost use Rattle.std.specs.Prelude.{◌≡◌, ◌<◌, ◌≤◌, ◌+◌, ◌*◌, ◌&&◌, eqb, length};
ghost use Rattle.network.specs.Network.{hop_at};
ghost use Rattle.network.specs.Views.{leaf};
ghost use Rattle.table.specs.Sections.{lent};
ghost use Rattle.rows.specs.Rows.{queue_of, row_of, rows_of};
ghost use Rattle.answers.specs.Analysis.{joined};
ghost use Rattle.sheet.specs.Sheet.{network_on};
ghost use Rattle.sheet.specs.Walks.{leaves_on};
ghost use Rattle.figures.specs.Judging.{Computed};
ghost use Rattle.analysis.specs.Placing.{Put, Room, put_at, RouteTicks, FrameTicks, gaps_of};

use figures::{Figures, ROW};
use frame::Frame;
use layout::sizes::{MOST_HOPS, MOST_SUBLINKS};
use sheet::{Accepted, Delays};

// ---- a row

// No accepted table has a route of more hops.
const MOST_ON_ROUTE: usize = 8;

// The ticks that a frame or a route takes, at most and at least.
#[derive(Clone, Copy)]
pub struct Ticks {
    pub most: u64,
    pub least: u64,
}

// The network of an accepted table, its figures, and which of its hops are nobody's parent: what the rows are made of.
#[derive(Clone, Copy)]
struct Known<'a> {
    net: Accepted<'a>,
    found: &'a Figures,
    leaves: &'a [bool; MOST_HOPS],
    ghost computed: { Computed (network_on net.sheet.now) found.now },
    ghost noted: { leaves.now ≡ leaves_on net.sheet.now },
}

impl<'a> Known<'a> {
    // What the route of hop h adds at most, the greatest switch delay and the figure of each port, and at least, a least frame on each link
    // and the least switch delay.
    fn route_ticks(self, h: usize) -> Ticks
        requires { h < length (network_on self.net.sheet.now).hops }
        ensures { RouteTicks (network_on self.entry.net.sheet.now) h result }
    {
        let mut ticks = Ticks { most: 0, least: 0 };
        let mut g = h;
        for _ in 0..MOST_ON_ROUTE {
            let hop = self.net.sheet.hop(g);
            let port = self.net.sheet.port(hop.port);
            ticks.most += port.greatest + self.found.hops[g];
            ticks.least += Frame::LEAST_LINE * port.perbyte + port.least;
            let Some(above) = hop.parent else {
                return ticks;
            };
            g = above;
        }
        ticks
    }

    // What a frame of VL v takes on its end system's link.
    fn frame_ticks(self, v: usize) -> Ticks
        requires { v < length (network_on self.net.sheet.now).vls }
        ensures { FrameTicks (network_on self.entry.net.sheet.now) v result }
    {
        let vl = self.net.sheet.vl(v);
        let system = self.net.sheet.system(vl.system);
        Ticks {
            most: figures::line(vl.lmax) * system.perbyte,
            least: Frame::LEAST_LINE * system.perbyte,
        }
    }

    // The queue figure of stream s's sub-link.
    fn queue_of(self, s: usize) -> u64
        requires { s < length (network_on self.net.sheet.now).streams }
        ensures is { result ≡ queue_of (network_on self.entry.net.sheet.now) s }
        ensures most { result ≤ 125000000 }
    {
        let stream = self.net.sheet.stream(s);
        self.found.queues[stream.vl * MOST_SUBLINKS + stream.sublink]
    }

    // The gaps before the last packet of stream s's least message.
    fn gaps_of(self, s: usize) -> u64
        requires { s < length (network_on self.net.sheet.now).streams }
        ensures is { result ≡ gaps_of (network_on self.entry.net.sheet.now) s }
        ensures most { result ≤ 545600000 }
    {
        let stream = self.net.sheet.stream(s);
        let vl = self.net.sheet.vl(stream.vl);
        (figures::packets(stream.least, vl.lmax) - 1) * vl.gap
    }

    // Stream, hop, queue, worst, best, jitter. It is compiled by itself, since the walk over the hops that calls it once a row needs the registers.
    #[inline(never)]
    fn row_of(self, s: usize, h: usize) -> [u64; ROW]
        requires stream { s < length (network_on self.net.sheet.now).streams }
        requires hop { h < length (network_on self.net.sheet.now).hops }
        ensures { result ≡ row_of (network_on self.entry.net.sheet.now) s h }
    {
        let d = self.net.sheet.delays();
        let stream = self.net.sheet.stream(s);
        let v = stream.vl;
        let queue = self.queue_of(s);
        let frame = self.frame_ticks(v);
        let route = self.route_ticks(h);
        let worst = worst_of(d, queue, self.found.waits[v], frame.most, route.most);
        let best = best_of(d, self.gaps_of(s), frame.least, route.least);
        let jitter = stream.jitter + search::less(worst, best);
        [s as u64, h as u64, queue, worst, best, jitter]
    }

    // Is hop h one of VL vl's, and nobody's parent?
    fn is_destination(self, vl: usize, h: usize) -> bool
        requires { h < length (network_on self.net.sheet.now).hops }
        ensures { let net = network_on self.entry.net.sheet.now in result ≡ (eqb (hop_at net h).vl vl && leaf net h) }
    {
        self.net.sheet.hop_row(h).vl == vl && self.leaves[h]
    }

    // The rows of stream s, from place `at` on: the place behind them.
    fn put_stream(self, s: usize, at: usize, res: &mut [u64]) -> usize
        requires stream { s < length (network_on self.net.sheet.now).streams }
        requires before { Put (network_on self.net.sheet.now) s at (length res.old) res.old }
        requires fits { 6 * length (rows_of (network_on self.net.sheet.now)) ≤ length res.old }
        ensures { Put (network_on self.entry.net.sheet.now) (s + 1) result (length res.old) res.new }
    {
        let vl = self.net.sheet.stream(s).vl;
        let mut next = at;
        for h in 0..self.net.sheet.hops() {
            if self.is_destination(vl, h) {
                put_row(res, next, self.row_of(s, h));
                next += ROW;
            }
        }
        next
    }
}

// The parts of worst, and those of best, in 01's order.
fn worst_of(d: Delays, queue: u64, wait: u64, frame: u64, route: u64) -> u64
    requires { d.send_greatest + queue + wait + frame + route + d.receive_greatest ≤ 2000000000 }
    ensures is { result ≡ d.send_greatest + queue + wait + frame + route + d.receive_greatest }
    ensures most { result ≤ 2000000000 }
{
    d.send_greatest + queue + wait + frame + route + d.receive_greatest
}

fn best_of(d: Delays, gaps: u64, frame: u64, route: u64) -> u64
    requires { d.send_least + gaps + frame + route + d.receive_least ≤ 2000000000 }
    ensures { result ≡ d.send_least + gaps + frame + route + d.receive_least }
{
    d.send_least + gaps + frame + route + d.receive_least
}

// ---- the rows in the lent result

fn put_row(res: &mut [u64], at: usize, row: [u64; ROW])
    requires { at + 6 ≤ length res.old }
    ensures { res.new ≡ put_at res.old at row }
{
    for (k, number) in row.iter().enumerate() {
        res[at + k] = *number;
    }
}

// All rows, in a lent result that is zero before and long enough: the place behind them.
pub fn put_rows(net: Accepted<'_>, found: &Figures, res: &mut [u64]) -> usize
    requires figures { Computed (network_on net.sheet.now) found.now }
    requires room { Room (network_on net.sheet.now) res.old }
    ensures count { result ≡ 6 * length (rows_of (network_on net.entry.sheet.now)) }
    ensures rows { res.new ≡ lent (length res.old) (joined (rows_of (network_on net.entry.sheet.now))) }
{
    let leaves = net.sheet.leaves();
    let known = Known {
        net,
        found,
        leaves: &leaves,
    };
    let mut at = 0;
    for s in 0..net.sheet.streams() {
        at = known.put_stream(s, at, res);
    }
    at
}
