// 01's whole case both ways: its lists written to bytes, and its bytes unpacked to lists; and number 10's bytes.
// Every lent place holds a nine before the unpacker's call, so that one that is not written shows.
use crate::print::{answer, hex, numbers};
use std::io;
use table::{Lists, ListsMut, Refusal};

pub const HEADER: [u64; 5] = [1, 500, 1_000, 500, 500];

// The lists of one end system, with nothing on it.
pub const SYSTEM: Lists<'static> = Lists {
    header: &HEADER,
    systems: &[100],
    vls: &[],
    streams: &[],
    ports: &[],
    hops: &[],
};

const WHOLE: Lists<'static> = Lists {
    header: &HEADER,
    systems: &[100],
    vls: &[0, 1, 1, 1_518, 0, 2, 1, 516],
    streams: &[
        0, 0, 0, 2_000, 1_000, 250_000, 0, 1, 0, 1, 469, 10, 500_000, 1_000,
    ],
    ports: &[100, 875, 1_250],
    hops: &[0, 0, 0, 1, 0, 0],
};

pub fn write_whole(out: &mut [u8]) {
    let _ = writer::write(WHOLE, out);
}

pub fn whole_case() -> [u8; 59] {
    let mut out = [0u8; 59];
    write_whole(&mut out);
    out
}

// The reader's answer for the first n bytes.
pub fn first_bytes(rt: &impl Print, bytes: &[u8], n: usize) -> io::Result<()> {
    match bytes.get(..n) {
        Some(first) => answer(rt, reader::check(first).err()),
        None => Ok(()),
    }
}

// The lists of a table, but for its hops, and why it is refused.
#[derive(Clone, Copy)]
pub struct FiveLists {
    pub refusal: Option<Refusal>,
    pub header: [u64; 5],
    pub systems: [u64; 2],
    pub vls: [u64; 9],
    pub streams: [u64; 14],
    pub ports: [u64; 3],
}

pub fn unpack(bytes: &[u8], hops: &mut [u64]) -> FiveLists {
    let mut header = [9; 5];
    let mut systems = [9; 2];
    let mut vls = [9; 9];
    let mut streams = [9; 14];
    let mut ports = [9; 3];
    let lists = ListsMut {
        header: &mut header,
        systems: &mut systems,
        vls: &mut vls,
        streams: &mut streams,
        ports: &mut ports,
        hops,
    };
    let refusal = unpacker::unpack(bytes, lists).err();
    FiveLists {
        refusal,
        header,
        systems,
        vls,
        streams,
        ports,
    }
}

pub fn unpacked(rt: &impl Print, bytes: &[u8]) -> io::Result<()> {
    let mut hops = [9; 6];
    let lists = unpack(bytes, &mut hops);
    answer(rt, lists.refusal)?;
    numbers(rt, &lists.header)?;
    numbers(rt, &lists.systems)?;
    numbers(rt, &lists.vls)?;
    numbers(rt, &lists.streams)?;
    numbers(rt, &lists.ports)?;
    numbers(rt, &hops)
}

// The bytes of a VL record, in a table of one end system and one VL.
fn record(rt: &impl Print, vl: &[u64]) -> io::Result<()> {
    let mut out = [0; 18];
    let written = writer::write(Lists { vls: vl, ..SYSTEM }, &mut out);
    answer(rt, written.err())?;
    hex(rt, &out[15..])
}

pub fn written(rt: &impl Print) -> io::Result<()> {
    println!(rt; "01, the whole case: its bytes, its answer, and its lists again")?;
    let out = whole_case();
    hex(rt, &out)?;
    answer(rt, reader::check(&out).err())?;
    unpacked(rt, &out)?;
    println!(rt; "01, number 10: 13 bytes; the VL record")?;
    first_bytes(rt, &out, 13)?;
    record(rt, &[0, 2, 1, 516])
}
