// The jitter and the figure of each hop, ports in order: a hop's jitter needs only its parent's, on a lower port, and that hop's figure.
// Gives 01's answer 10.
ghost use Rattle.std.specs.Prelude.{◌≡◌, ◌≤◌, ◌+◌, ◌-◌, suc, replicate, IfOk};
ghost use Rattle.layout.specs.Limits.{limits};
ghost use Rattle.network.specs.Network.{port_at};
ghost use Rattle.rows.specs.Links.{hop_spread};
ghost use Rattle.rows.specs.Ports.{hop_flow, port_flows, jitter_of, figure_of};
ghost use Rattle.table.specs.Sections.{lent};
ghost use Rattle.sheet.specs.Sheet.{network_on};
ghost use Rattle.answers.specs.Analysis.{answer10};
ghost use Rattle.figures.specs.Figures.{waits_of, hop_figures};
ghost use Rattle.figures.specs.Computing.{PortRange, Noted, HopAsked, PortAsked, FigureFor};
ghost use Rattle.table.specs.Refusals.{given};

use crate::flows::Flows;
use crate::{frames, links};
use frame::Frame;
use layout::sizes::{MOST_HOPS, MOST_VLS};
use network::{Hop, Port};
use sheet::Accepted;
use station::Flow;
use table::Refusal;

// What is between the greatest and the least switch delay before a port.
fn spread(port: Port) -> u64
    requires { PortRange port }
    ensures is { result ≡ port.greatest - port.least }
    ensures most { result ≤ 1250 }
{
    port.greatest - port.least
}

// What the flow of a hop is made of: the network, the mux waits, and the figures and the jitters of the hops on lower ports.
#[derive(Clone, Copy)]
struct Lower<'a> {
    net: Accepted<'a>,
    waits: &'a [u64; MOST_VLS],
    figures: &'a [u64; MOST_HOPS],
    jitters: &'a [u64; MOST_HOPS],
}

impl<'a> Lower<'a> {
    // By how much the frames are apart that come to the switch before hop h: the mux wait and what is between their most and least ticks
    // behind the end system; the parent's jitter and figure, less its least frame, behind a port.
    fn apart(self, h: usize, hop: Hop) -> u64
        requires { HopAsked (network_on self.net.sheet.now) self.waits.now self.figures.now self.jitters.now h hop }
        ensures is { let network = network_on self.entry.net.sheet.now in result + hop_spread network h ≡ jitter_of network h }
        ensures most { result ≤ 1225000000 }
    {
        let Some(g) = hop.parent else {
            return self.waits[hop.vl] + links::send_spread(self.net, hop.vl);
        };
        let port = self.net.sheet.port(self.net.sheet.hop(g).port);
        self.jitters[g] + search::less(self.figures[g], Frame::LEAST_LINE * port.perbyte)
    }

    // The flow of hop h on its port.
    fn flow(self, h: usize, hop: Hop, port: Port) -> Flow
        requires asked { HopAsked (network_on self.net.sheet.now) self.waits.now self.figures.now self.jitters.now h hop }
        requires on { port ≡ port_at (network_on self.net.sheet.now) hop.port }
        ensures { let network = network_on self.entry.net.sheet.now in result ≡ hop_flow network (jitter_of network) h }
    {
        let vl = self.net.sheet.vl(hop.vl);
        Flow {
            period: vl.gap,
            jitter: self.apart(h, hop) + spread(port),
            cost: links::frame_most(vl, port.perbyte),
        }
    }
}

// The flows of port p; notes the jitters of the hops on it.
fn port_flows(
    net: Accepted<'_>,
    waits: &[u64; MOST_VLS],
    figures: &[u64; MOST_HOPS],
    p: usize,
    jitters: &mut [u64; MOST_HOPS],
    flows: &mut Flows,
)
    requires { PortAsked (network_on net.sheet.now) waits.now figures.now jitters.old p }
    ensures flows { let network = network_on net.entry.sheet.now in flows.new ≡ port_flows network (jitter_of network) p }
    ensures jitters { let network = network_on net.entry.sheet.now in Noted network (jitter_of network) (suc p) jitters.new }
{
    let port = net.sheet.port(p);
    flows.clear();
    for h in 0..net.sheet.hops() {
        let hop = net.sheet.hop_row(h);
        if hop.port == p {
            let lower = Lower {
                net,
                waits,
                figures,
                jitters,
            };
            let flow = lower.flow(h, hop, port);
            jitters[h] = flow.jitter;
            flows.push(flow);
        }
    }
}

// The figure of port p is that of each hop on it.
fn put_figure(net: Accepted<'_>, p: usize, figure: u64, figures: &mut [u64; MOST_HOPS])
    requires { FigureFor (network_on net.sheet.now) p figure figures.old }
    ensures { let network = network_on net.entry.sheet.now in Noted network (figure_of network) (suc p) figures.new }
{
    for h in 0..net.sheet.hops() {
        if net.sheet.hop_row(h).port == p {
            figures[h] = figure;
        }
    }
}

// 10: the first port that has no busy length; the figures of the hops, in a list that is zero before.
pub fn all_ports(
    net: Accepted<'_>,
    waits: &[u64; MOST_VLS],
    flows: &mut Flows,
    figures: &mut [u64; MOST_HOPS],
) -> Result<(), Refusal>
    requires waits { waits.now ≡ lent limits.vls (waits_of (network_on net.sheet.now)) }
    requires none { figures.old ≡ replicate limits.hops 0 }
    ensures answer { given result ≡ answer10 (network_on net.entry.sheet.now) }
    ensures figures { IfOk result (λ _. figures.new ≡ lent limits.hops (hop_figures (network_on net.entry.sheet.now))) }
{
    let mut jitters = [0; MOST_HOPS];
    for p in 0..net.sheet.ports() {
        port_flows(net, waits, figures, p, &mut jitters, flows);
        let Some(figure) = flows.figure() else {
            return Err(Refusal::EndlessPort { row: p as u64 });
        };
        put_figure(net, p, figure, figures);
    }
    Ok(())
}
