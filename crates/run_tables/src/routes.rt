// Routes of one VL through ten ports: chains of hops, and each kind of hop that is refused.
// An end system has no VL and a port no hop, and both are accepted.
use crate::whole::{HEADER, first_bytes};
use std::io;
use table::Lists;

// One VL, and ten ports: five of 100 Mbit/s, five of 10.
const ROUTED: Lists<'static> = Lists {
    header: &HEADER,
    systems: &[100, 10],
    vls: &[1, 128, 4, 64],
    streams: &[],
    ports: &[
        100, 0, 0, 100, 0, 0, 100, 0, 0, 100, 0, 0, 100, 0, 0, 10, 0, 0, 10, 0, 0, 10, 0, 0, 10, 0,
        0, 10, 0, 0,
    ],
    hops: &[],
};

// Hops of the VL, each on the next port and behind the one before.
const CHAIN: [u64; 27] = [
    0, 0, 0, 0, 1, 1, 0, 2, 2, 0, 3, 3, 0, 4, 4, 0, 5, 5, 0, 6, 6, 0, 7, 7, 0, 8, 8,
];

fn routed(rt: &impl Print, hops: &[u64]) -> io::Result<()> {
    let mut out = [0; 100];
    let written = writer::write(Lists { hops, ..ROUTED }, &mut out);
    first_bytes(rt, &out, written.unwrap_or(0))
}

pub fn routes(rt: &impl Print) -> io::Result<()> {
    println!(rt;
        "a VL without streams, an end system without VLs, a port without hops: a route of 8 hops, and of 9"
    )?;
    routed(rt, &CHAIN[..24])?;
    routed(rt, &CHAIN)?;
    println!(rt;
        "no hop; a hop of no VL; a twin; a parent on the same, on a higher port; a later parent; three leaves"
    )?;
    routed(rt, &[])?;
    routed(rt, &[0, 0, 0, 1, 1, 0])?;
    routed(rt, &[0, 3, 0, 0, 4, 0, 0, 3, 0])?;
    routed(rt, &[0, 3, 0, 0, 3, 1])?;
    routed(rt, &[0, 3, 0, 0, 2, 1])?;
    routed(rt, &[0, 1, 2, 0, 2, 0])?;
    routed(rt, &[0, 0, 0, 0, 1, 1, 0, 2, 1, 0, 3, 2])
}
