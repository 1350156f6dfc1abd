// A frame on a link, and the mux wait: what the VLs of one end system cost one another.
// Gives 01's answer 7.
ghost use Rattle.std.specs.Prelude.{◌≡◌, ◌<◌, ◌≤◌, ◌*◌, Some, eqb, length, replicate};
ghost use Rattle.std.specs.Option.{option_eq};
ghost use Rattle.frame.specs.Frame.{largest_line};
ghost use Rattle.layout.specs.Limits.{limits};
ghost use Rattle.rows.specs.Links.{send_spread};
ghost use Rattle.rows.specs.Refusals.{sends_late};
ghost use Rattle.table.specs.Sections.{lent};
ghost use Rattle.sheet.specs.Sheet.{network_on};
ghost use Rattle.answers.specs.Analysis.{answer7};
ghost use Rattle.figures.specs.Figures.{waits_of};
ghost use Rattle.figures.specs.Computing.{OnLink, sum_without};
ghost use Rattle.table.specs.Refusals.{given};

use crate::frames;
use frame::{Frame, Tick};
use layout::sizes::MOST_VLS;
use network::Vl;
use sheet::Accepted;
use table::Refusal;

// The most ticks of a VL's frame on a link where a byte takes so many.
pub fn frame_most(vl: Vl, perbyte: u64) -> u64
    requires { OnLink vl perbyte }
    ensures is { result ≡ largest_line vl.lmax * perbyte }
    ensures most { result ≤ 15380 }
{
    frames::line(vl.lmax) * perbyte
}

// What is between the most and the least ticks of VL v's frame on the link of its end system.
pub fn send_spread(net: Accepted<'_>, v: usize) -> u64
    requires { v < length (network_on net.sheet.now).vls }
    ensures is { result ≡ send_spread (network_on net.entry.sheet.now) v }
    ensures most { result ≤ 15380 }
{
    let vl = net.sheet.vl(v);
    let perbyte = net.sheet.system(vl.system).perbyte;
    frame_most(vl, perbyte) - Frame::LEAST_LINE * perbyte
}

// Whether VL v is the one that is left out.
fn left_out(but: Option<usize>, v: usize) -> bool
    ensures { result ≡ option_eq eqb (Some v) but }
{
    match but {
        Some(out) => v == out,
        None => false,
    }
}

// The frames of the VLs of end system e: of all, or with one left out, whose mux wait they are.
fn sum_without(net: Accepted<'_>, e: usize, but: Option<usize>) -> u64
    requires { e < length (network_on net.sheet.now).systems }
    ensures { let network = network_on net.entry.sheet.now in result ≡ sum_without network e but (length network.vls) }
{
    let perbyte = net.sheet.system(e).perbyte;
    let mut sum = 0;
    for v in 0..net.sheet.vls() {
        let vl = net.sheet.vl(v);
        if vl.system == e && !left_out(but, v) {
            sum += frame_most(vl, perbyte);
        }
    }
    sum
}

// The mux wait of each VL, in a list that is zero before.
pub fn mux_waits(net: Accepted<'_>, waits: &mut [u64; MOST_VLS])
    requires { waits.old ≡ replicate limits.vls 0 }
    ensures { waits.new ≡ lent limits.vls (waits_of (network_on net.entry.sheet.now)) }
{
    for v in 0..net.sheet.vls() {
        waits[v] = sum_without(net, net.sheet.vl(v).system, Some(v));
    }
}

// Whether the frames of end system e do not keep to equation 1.
fn sends_late(net: Accepted<'_>, e: usize) -> bool
    requires { e < length (network_on net.sheet.now).systems }
    ensures { result ≡ sends_late (network_on net.entry.sheet.now) e }
{
    !Tick::sends_in_time(sum_without(net, e, None))
}

// 7: the first end system that sends late.
pub fn in_time(net: Accepted<'_>) -> Result<(), Refusal>
    ensures { given result ≡ answer7 (network_on net.entry.sheet.now) }
{
    for e in 0..net.sheet.systems() {
        if sends_late(net, e) {
            return Err(Refusal::LateSystem { row: e as u64 });
        }
    }
    Ok(())
}
