// The fields of each kind of record, in order: what differs between kinds. Their names, widths and what they stand for are here and nowhere else in code.
// Each is chosen by its number, not read from an array, which would be built anew at each call.
ghost use Rattle.std.specs.Prelude.{◌≡◌, get_or};
ghost use Rattle.layout.specs.Layout.{field, layout, blank};

use crate::sizes::{MOST_HOPS, MOST_PORTS, MOST_STREAMS, MOST_SYSTEMS, MOST_VLS};
use crate::{Kind, Name, Shape};

// A shape in one line.
fn shape(name: Name, width: usize, kind: Kind) -> Shape
    ensures { result ≡ field name width kind }
{
    Shape { name, width, kind }
}

// The width of field k of a record of this kind, 0 where it has none. By itself it is compiled to a look-up in a table.
#[inline(never)]
pub(crate) fn width_at(kind: usize, k: usize) -> usize
    ensures { result ≡ (get_or (layout kind) k blank).width }
{
    shape_at(kind, k).width
}

// The shape of field k of a record of this kind, blank where it has none.
#[tactic(auto, unfolding(crate::specs::Layout::layout_in))]
#[inline(always)]
pub fn shape_at(kind: usize, k: usize) -> Shape
    ensures { result ≡ get_or (layout kind) k blank }
{
    match (kind, k) {
        // the header
        (0, 0) => shape(Name::Version, 8, Kind::Number(1, 1)),
        (0, 1) => shape(Name::EndSystems, 8, Kind::Number(0, MOST_SYSTEMS as u64)),
        (0, 2) => shape(Name::Vls, 12, Kind::Number(0, MOST_VLS as u64)),
        (0, 3) => shape(Name::Streams, 12, Kind::Number(0, MOST_STREAMS as u64)),
        (0, 4) => shape(Name::Ports, 8, Kind::Number(0, MOST_PORTS as u64)),
        (0, 5) => shape(Name::Hops, 12, Kind::Number(0, MOST_HOPS as u64)),
        (0, 6) => shape(Name::SendLeast, 12, Kind::Number(0, 1_875)),
        (0, 7) => shape(Name::SendGreatest, 12, Kind::Number(0, 1_875)),
        (0, 8) => shape(Name::ReceiveLeast, 12, Kind::Number(0, 1_875)),
        (0, 9) => shape(Name::ReceiveGreatest, 12, Kind::Number(0, 1_875)),
        (0, 10) => shape(Name::Padding, 4, Kind::Padding),
        // an end system
        (1, 0) => shape(Name::Speed, 1, Kind::Speed),
        (1, 1) => shape(Name::Padding, 7, Kind::Padding),
        // a VL
        (2, 0) => shape(Name::EndSystem, 8, Kind::Reference),
        (2, 1) => shape(Name::Gap, 3, Kind::Gap),
        (2, 2) => shape(Name::SubLinks, 2, Kind::LessOne),
        (2, 3) => shape(Name::Lmax, 11, Kind::Number(64, 1_518)),
        // a stream
        (3, 0) => shape(Name::Vl, 12, Kind::Reference),
        (3, 1) => shape(Name::SubLink, 2, Kind::Reference),
        (3, 2) => shape(Name::Kind, 1, Kind::Number(0, 1)),
        (3, 3) => shape(Name::Size, 14, Kind::Number(1, 8_192)),
        (3, 4) => shape(Name::LeastSize, 14, Kind::Number(1, 8_192)),
        (3, 5) => shape(Name::Period, 27, Kind::Number(12_500, 125_000_000)),
        (3, 6) => shape(Name::Jitter, 27, Kind::Number(0, 125_000_000)),
        (3, 7) => shape(Name::Padding, 7, Kind::Padding),
        // a port
        (4, 0) => shape(Name::Speed, 1, Kind::Speed),
        (4, 1) => shape(Name::SwitchLeast, 12, Kind::Number(0, 1_250)),
        (4, 2) => shape(Name::SwitchGreatest, 12, Kind::Number(0, 1_250)),
        (4, 3) => shape(Name::Padding, 7, Kind::Padding),
        // a hop
        (5, 0) => shape(Name::Vl, 12, Kind::Reference),
        (5, 1) => shape(Name::Port, 8, Kind::Reference),
        (5, 2) => shape(Name::Parent, 12, Kind::Reference),
        _ => shape(Name::Padding, 0, Kind::Padding),
    }
}
