// The whole case cut short, whole and longer; and the shortest table, whose counts are 0.
// A table is as long as its counts say: any other length is refused.
use crate::print::answer;
use crate::whole::{first_bytes, unpacked, write_whole};
use std::io;

const EMPTY: [u8; 14] = [1, 0, 0, 0, 0, 0, 0, 0, 0, 0, 0, 0, 0, 0];

pub fn lengths(rt: &impl Print) -> io::Result<()> {
    println!(rt; "0, 13, 14, 58, 59 and 60 bytes of the whole case; the table whose counts are 0")?;
    let mut longer = [7u8; 60];
    write_whole(&mut longer);
    for n in [0, 13, 14, 58, 59, 60] {
        first_bytes(rt, &longer, n)?;
    }
    answer(rt, reader::check(&EMPTY).err())?;
    unpacked(rt, &EMPTY)
}
