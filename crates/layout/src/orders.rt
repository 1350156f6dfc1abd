// The pairs of fields of each kind of record that have to be in order, as data for whoever tells of them: the test of pair k stands k behind the fields.
// `order_fault` has them as comparisons of fields at their places; both are proved to be the pairs of the definition.
ghost use Rattle.std.specs.Prelude.{◌≡◌, length, get_or};
ghost use Rattle.layout.specs.Layout.{orders, no_order};
ghost use Rattle.layout.specs.Promises.{order_fault};

use crate::sizes::LONGEST;
use crate::{Name, Order, places};

// How many pairs a record of this kind has.
#[tactic(auto, unfolding(crate::specs::Layout::orders))]
pub fn orders_in(kind: usize) -> usize
    ensures { result ≡ length (orders kind) }
{
    match kind {
        0 => 2,
        3 | 4 => 1,
        _ => 0,
    }
}

// Pair k of a record of this kind; padding and padding where it has none.
#[tactic(auto, unfolding(crate::specs::Layout::orders))]
pub fn order_at(kind: usize, k: usize) -> Order
    ensures { result ≡ get_or (orders kind) k no_order }
{
    match (kind, k) {
        (0, 0) => Order {
            lesser: Name::SendLeast,
            greater: Name::SendGreatest,
        },
        (0, 1) => Order {
            lesser: Name::ReceiveLeast,
            greater: Name::ReceiveGreatest,
        },
        (3, 0) => Order {
            lesser: Name::LeastSize,
            greater: Name::Size,
        },
        (4, 0) => Order {
            lesser: Name::SwitchLeast,
            greater: Name::SwitchGreatest,
        },
        _ => Order {
            lesser: Name::Padding,
            greater: Name::Padding,
        },
    }
}

// The first pair of fields that are not in order, by its place behind the fields.
pub fn order_fault(kind: usize, row: &[u64; LONGEST]) -> Option<u64>
    ensures { result ≡ order_fault kind row.now }
{
    match kind {
        0 if row[places::SEND_GREATEST] < row[places::SEND_LEAST] => Some(11),
        0 if row[places::RECEIVE_GREATEST] < row[places::RECEIVE_LEAST] => Some(12),
        3 if row[places::STREAM_SIZE] < row[places::STREAM_LEAST_SIZE] => Some(8),
        4 if row[places::PORT_GREATEST] < row[places::PORT_LEAST] => Some(4),
        _ => None,
    }
}
