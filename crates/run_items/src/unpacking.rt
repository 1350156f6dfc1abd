// A table to unpack: the lists that it gives, each lent a length that the item names.
// All that matters is in `unpacker`; here is only what reads and prints.
use crate::input::{read_bytes, read_length, read_lengths};
use crate::output::{Output, TEXT, rest};
use crate::space::Space;
use crate::{MOST_BYTES, first};
use layout::sizes;
use std::io::Stdin;
use table::{Counts, Lists, Refusal};

// How many numbers of each list are used; none on a refusal.
fn used(said: Result<Counts, Refusal>) -> [usize; 6] {
    let Ok(counts) = said else {
        return [0; 6];
    };
    [
        sizes::HEADER_LIST,
        counts.systems,
        counts.vls.saturating_mul(sizes::VL),
        counts.streams.saturating_mul(sizes::STREAM),
        counts.ports.saturating_mul(sizes::PORT),
        counts.hops.saturating_mul(sizes::HOP),
    ]
}

// A line for each list where the table is accepted; none on a refusal.
fn put_unpacked(said: Result<Counts, Refusal>, lists: Lists<'_>) {
    let mut text = [0; TEXT];
    let mut out = Output::new(&mut text);
    out.put_answer(b'U', said.err());
    let each = [
        lists.header,
        lists.systems,
        lists.vls,
        lists.streams,
        lists.ports,
        lists.hops,
    ];
    let mut others = 0usize;
    for (list, n) in each.into_iter().zip(used(said)) {
        if said.is_ok() {
            out.put_list(first(list, n));
        }
        others = others.saturating_add(rest(list, n));
    }
    out.end(others);
}

pub fn unpack_item(stdin: Stdin) {
    let rooms = read_lengths(stdin);
    let n = read_length(stdin, MOST_BYTES);
    let mut bytes = [0; MOST_BYTES];
    read_bytes(stdin, &mut bytes[..n]);
    let mut space = Space::UNWRITTEN;
    let said = unpacker::unpack(&bytes[..n], space.first_mut(rooms));
    put_unpacked(said, space.first(rooms));
}
