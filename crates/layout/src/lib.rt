// The layout of the packed table as data, and a record of it as a row of numbers: read, tested, meant, stored and written.
// One body serves every kind of record: what differs between kinds stands in `shapes`, `orders` and `kinds`.
#![tactic(auto)]

mod fields;
mod kinds;
mod orders;
pub mod places;
mod rows;
mod shapes;
pub mod sizes;

pub use kinds::{bytes_in, fields_in, kind_of, longest_table, numbers_in};
pub use orders::{order_at, orders_in};
pub use rows::{converted_number, converted_row, fault_of, put_row, read_row};
pub use shapes::shape_at;

// What a stored field stands for.
#[derive(Clone, Copy, PartialEq, Eq, Debug)]
pub enum Kind {
    // a number from the first to the second
    Number(u64, u64),
    // a row of another section, or a sub-link: any number
    Reference,
    // zero
    Padding,
    // a code of the gap in milliseconds
    Gap,
    // a count, less one
    LessOne,
    // a code of the speed in Mbit/s
    Speed,
}

// What a field is called.
#[derive(Clone, Copy, PartialEq, Eq, Debug)]
pub enum Name {
    Version,
    EndSystems,
    Vls,
    Streams,
    Ports,
    Hops,
    SendLeast,
    SendGreatest,
    ReceiveLeast,
    ReceiveGreatest,
    Padding,
    Speed,
    EndSystem,
    Gap,
    SubLinks,
    Lmax,
    Vl,
    SubLink,
    Kind,
    Size,
    LeastSize,
    Period,
    Jitter,
    SwitchLeast,
    SwitchGreatest,
    Port,
    Parent,
}

// A field: its name, its width in bits and what it stands for.
#[derive(Clone, Copy, PartialEq, Eq, Debug)]
pub struct Shape {
    pub name: Name,
    pub width: usize,
    pub kind: Kind,
}

// Two fields of a record of which one is at most the other.
#[derive(Clone, Copy, PartialEq, Eq, Debug)]
pub struct Order {
    pub lesser: Name,
    pub greater: Name,
}

// Whether numbers are read from the table or are to be written to it.
#[derive(Clone, Copy, PartialEq, Eq, Debug)]
pub enum Way {
    Reading,
    Writing,
}
