// 01's answers 5 and 6: the references of the network on a sheet, row by row in 01's order, and its sampling messages.
// A record past the last row is one of zeros, so that each test stands for every row.
// There is no `?`, `any` or `find` here, nor another call of std: the code of a program is linked from our own crates' alone (order/proofs/There).
ghost use Rattle.std.specs.Prelude.{◌<◌, [], ◌∷◌, ◌≡◌, ℕ, Option, length};
ghost use Rattle.network.specs.References.{ref_fault, has_hop, no_earlier_twin, not_too_deep, one_sample};
ghost use Rattle.network.specs.Ranges.{Ranges};
ghost use Rattle.table.specs.Answers.{first_given};
ghost use Rattle.table.specs.Refusals.{said};
ghost use Rattle.table.specs.Read.{answer5, answer6};
ghost use Rattle.sheet.specs.Sheet.{network_on};
ghost use Rattle.reader.specs.Referring.{Computes, first_bad, sample_answer, parent_fault, Named};

use sheet::Sheet;
use table::Refusal;

// Answers 5 and 6. They are compiled by themselves, so that their walks over the hops fall as they do here, whatever calls them.
#[inline(never)]
pub fn references(net: &Sheet) -> Result<(), Refusal>
    requires { Ranges (network_on net.now) }
    ensures { said result ≡ first_given (answer5 (network_on net.now) ∷ answer6 (network_on net.now) ∷ []) }
{
    if let Err(refusal) = first_bad(2, net.vls(), |v| vl_fault(net, v)) {
        return Err(refusal);
    }
    if let Err(refusal) = first_bad(3, net.streams(), |s| stream_fault(net, s)) {
        return Err(refusal);
    }
    if let Err(refusal) = first_bad(5, net.hops(), |h| hop_fault(net, h)) {
        return Err(refusal);
    }
    samples(net)
}

// The first of the rows of a section that has a fault, by the test that fails.
fn first_bad<F: Fn(usize) -> Option<u64>>(
    section: u64,
    rows: usize,
    fault: F,
) -> Result<(), Refusal>
    requires { (i : ℕ) → i < rows → F.pre fault i }
    ensures { (f : ℕ → Option ℕ) → Computes (F.post fault) rows f → said result ≡ first_bad f section rows }
{
    for i in 0..rows {
        if let Some(test) = fault(i) {
            return Err(Refusal::Reference {
                section,
                row: i as u64,
                test,
            });
        }
    }
    Ok(())
}

// ---- VLs: each names an end system and has a hop.
fn vl_fault(net: &Sheet, v: usize) -> Option<u64>
    ensures { result ≡ ref_fault (network_on net.now) 2 v }
{
    if net.systems() <= net.vl(v).system {
        Some(0)
    } else if !has_hop(net, v) {
        Some(1)
    } else {
        None
    }
}

fn has_hop(net: &Sheet, v: usize) -> bool
    ensures { result ≡ has_hop (network_on net.now) v }
{
    for h in 0..net.hops() {
        if net.hop_row(h).vl == v {
            return true;
        }
    }
    false
}

// ---- streams: each names a VL and a sub-link of it.
fn stream_fault(net: &Sheet, s: usize) -> Option<u64>
    ensures { result ≡ ref_fault (network_on net.now) 3 s }
{
    let stream = net.stream(s);
    if net.vls() <= stream.vl {
        Some(0)
    } else if net.vl(stream.vl).sublinks <= stream.sublink {
        Some(1)
    } else {
        None
    }
}

// ---- hops: each names a VL and a port; its parent is an earlier row of the same VL on a lower-numbered port; no earlier hop is its twin; it is not deeper than 8.
fn hop_fault(net: &Sheet, h: usize) -> Option<u64>
    requires { h < length (network_on net.now).hops }
    ensures { result ≡ ref_fault (network_on net.now) 5 h }
{
    let hop = net.hop(h);
    if net.vls() <= hop.vl {
        Some(0)
    } else if net.ports() <= hop.port {
        Some(1)
    } else if let Some(test) = parent_fault(net, h) {
        Some(test)
    } else if !no_earlier_twin(net, h) {
        Some(5)
    } else if !not_too_deep(net, h) {
        Some(6)
    } else {
        None
    }
}

// The first test of the parent that fails.
fn parent_fault(net: &Sheet, h: usize) -> Option<u64>
    ensures { result ≡ parent_fault (network_on net.now) h }
{
    let hop = net.hop(h);
    let Some(g) = hop.parent else {
        return None;
    };
    if h <= g {
        return Some(2);
    }
    let above = net.hop(g);
    if above.vl != hop.vl {
        Some(3)
    } else if hop.port <= above.port {
        Some(4)
    } else {
        None
    }
}

fn no_earlier_twin(net: &Sheet, h: usize) -> bool
    requires { h < length (network_on net.now).hops }
    ensures { result ≡ no_earlier_twin (network_on net.now) h }
{
    let hop = net.hop_row(h);
    for g in 0..h {
        let other = net.hop_row(g);
        if other.vl == hop.vl && other.port == hop.port {
            return false;
        }
    }
    true
}

fn not_too_deep(net: &Sheet, h: usize) -> bool
    ensures { result ≡ not_too_deep (network_on net.now) h }
{
    let mut g = h;
    for _ in 0..8usize {
        let Some(above) = net.hop(g).parent else {
            return true;
        };
        g = above;
    }
    false
}

// ---- samples: each is one packet.
fn samples(net: &Sheet) -> Result<(), Refusal>
    requires { Named (network_on net.now) }
    ensures { said result ≡ sample_answer (network_on net.now) }
{
    for s in 0..net.streams() {
        if !one_sample(net, s) {
            return Err(Refusal::Sample { row: s as u64 });
        }
    }
    Ok(())
}

fn one_sample(net: &Sheet, s: usize) -> bool
    requires { Named (network_on net.now) × (s < length (network_on net.now).streams) }
    ensures { result ≡ one_sample (network_on net.now) s }
{
    let stream = net.stream(s);
    if !stream.sampling {
        return true;
    }
    let lmax = net.vl(stream.vl).lmax;
    match frame::packets_of(stream.size, lmax) {
        Some(n) => n <= 1,
        None => false,
    }
}
