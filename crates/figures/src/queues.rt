// The queue figure of each sub-link, from the flows of its streams.
// Gives 01's answer 9.
ghost use Rattle.std.specs.Prelude.{◌≡◌, ◌*◌, replicate, IfOk};
ghost use Rattle.layout.specs.Limits.{limits};
ghost use Rattle.rows.specs.Queues.{queue_flows, queue_length, queue_figure};
ghost use Rattle.table.specs.Sections.{lent};
ghost use Rattle.sheet.specs.Sheet.{network_on};
ghost use Rattle.answers.specs.Analysis.{answer9};
ghost use Rattle.figures.specs.Figures.{queues_of};
ghost use Rattle.figures.specs.Computing.{QueueRange, VlThere};
ghost use Rattle.figures.specs.Gathering.{flow_of, if_busy};
ghost use Rattle.table.specs.Refusals.{given};

use crate::flows::Flows;
use crate::frames;
use layout::sizes::{MOST_SUBLINKS, QUEUES};
use network::{Stream, Vl};
use sheet::{Accepted, Delays};
use station::Flow;
use table::Refusal;

// The flow of a stream of a VL.
fn queue_flow(d: Delays, stream: Stream, vl: Vl) -> Flow
    requires { QueueRange d stream vl }
    ensures { result ≡ flow_of d stream vl }
{
    Flow {
        period: stream.period,
        jitter: stream.jitter + (d.send_greatest - d.send_least),
        cost: frames::packets(stream.size, vl.lmax) * vl.sublinks as u64 * vl.gap,
    }
}

// The flows of sub-link k of VL v.
fn queue_flows(net: Accepted<'_>, v: usize, vl: Vl, k: usize, flows: &mut Flows)
    requires { VlThere (network_on net.sheet.now) v vl }
    ensures { flows.new ≡ queue_flows (network_on net.entry.sheet.now) v k }
{
    let d = net.sheet.delays();
    flows.clear();
    for s in 0..net.sheet.streams() {
        let stream = net.sheet.stream_row(s);
        if stream.vl == v && stream.sublink == k {
            flows.push(queue_flow(d, stream, vl));
        }
    }
}

// The figure of sub-link k of VL v, where its queue has a busy length.
fn queue(net: Accepted<'_>, v: usize, vl: Vl, k: usize, flows: &mut Flows) -> Option<u64>
    requires { VlThere (network_on net.sheet.now) v vl }
    ensures { let network = network_on net.entry.sheet.now in result ≡ if_busy (queue_length network v k) (queue_figure network v k) }
{
    queue_flows(net, v, vl, k, flows);
    match flows.figure() {
        Some(figure) => Some(search::less(figure, vl.gap)),
        None => None,
    }
}

// 9: the first VL with a queue that has no busy length; the figures by place, in a list that is zero before.
pub fn all_queues(
    net: Accepted<'_>,
    flows: &mut Flows,
    queues: &mut [u64; QUEUES],
) -> Result<(), Refusal>
    requires { queues.old ≡ replicate (limits.vls * 4) 0 }
    ensures answer { given result ≡ answer9 (network_on net.entry.sheet.now) }
    ensures figures { IfOk result (λ _. queues.new ≡ lent (limits.vls * 4) (queues_of (network_on net.entry.sheet.now))) }
{
    for v in 0..net.sheet.vls() {
        let vl = net.sheet.vl(v);
        for k in 0..vl.sublinks {
            let Some(figure) = queue(net, v, vl, k, flows) else {
                return Err(Refusal::EndlessQueue { row: v as u64 });
            };
            queues[v * MOST_SUBLINKS + k] = figure;
        }
    }
    Ok(())
}
