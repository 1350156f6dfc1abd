// The writer's refusals, and lent results that are too short for the writer and for the unpacker.
// A refusal clears all that was lent.
use crate::print::{answer, hex, numbers};
use crate::whole::{SYSTEM, unpack, whole_case};
use std::io;
use table::Lists;

const VL: [u64; 4] = [0, 2, 1, 516];

const HOP: [u64; 3] = [0, 0, 0];

// The writer's answer for a VL and hops, in bytes that held sevens.
fn write<'a>(rt: &impl Print, vls: &'a [u64], hops: &'a [u64], out: &mut [u8]) -> io::Result<()> {
    let written = writer::write(
        Lists {
            vls,
            hops,
            ..SYSTEM
        },
        out,
    );
    answer(rt, written.err())?;
    print!(rt; "{} ", written.unwrap_or(0))?;
    hex(rt, out)
}

pub fn rooms(rt: &impl Print) -> io::Result<()> {
    println!(rt; "the writer: a VL and a hop in 24, 22 and 21 bytes")?;
    write(rt, &VL, &HOP, &mut [7; 24])?;
    write(rt, &VL, &HOP, &mut [7; 22])?;
    write(rt, &VL, &HOP, &mut [7; 21])
}

pub fn writes(rt: &impl Print) -> io::Result<()> {
    println!(rt;
        "the writer: no whole record; a gap of 3 ms; a VL of 4,096; 5 sub-links; Lmax 63"
    )?;
    write(rt, &[0, 2, 1], &HOP, &mut [7; 24])?;
    write(rt, &[0, 3, 1, 516], &HOP, &mut [7; 24])?;
    write(rt, &VL, &[0, 0, 0, 4_096, 0, 0], &mut [7; 24])?;
    write(rt, &[0, 2, 5, 516], &HOP, &mut [7; 24])?;
    write(rt, &[0, 2, 1, 63], &HOP, &mut [7; 24])
}

pub fn too_short(rt: &impl Print) -> io::Result<()> {
    println!(rt; "the unpacker: hops for one record only")?;
    let mut hops = [9; 5];
    let lists = unpack(&whole_case(), &mut hops);
    answer(rt, lists.refusal)?;
    numbers(rt, &lists.vls)?;
    numbers(rt, &hops)
}
