// What is read: bytes, lengths of four bytes and numbers of eight, most significant byte first.
// Where the input ends, zeros are read.
ghost use Rattle.std.specs.Prelude.{◌≤◌};

use crate::first_mut;
use crate::space::LENGTHS;
use std::io::Stdin;

// The bytes of the longest list.
const LONGEST: usize = 3_600 * 8;

pub fn read_bytes(stdin: Stdin, bytes: &mut [u8]) {
    let _ = console::read_input(stdin, bytes);
}

pub fn read_byte(stdin: Stdin) -> u8 {
    let mut byte = [0];
    read_bytes(stdin, &mut byte);
    byte[0]
}

// A length, at most `most`.
pub fn read_length(stdin: Stdin, most: usize) -> usize
    ensures { result ≤ most }
{
    let mut bytes = [0; 4];
    read_bytes(stdin, &mut bytes);
    most.min(u32::from_be_bytes(bytes) as usize)
}

// The lengths of the six lists.
pub fn read_lengths(stdin: Stdin) -> [usize; 6] {
    LENGTHS.map(|most| read_length(stdin, most))
}

pub fn read_numbers(stdin: Stdin, list: &mut [u64]) {
    let mut bytes = [0; LONGEST];
    read_bytes(stdin, first_mut(&mut bytes, list.len().saturating_mul(8)));
    let (numbers, _) = bytes.as_chunks::<8>();
    for (place, number) in list.iter_mut().zip(numbers) {
        *place = u64::from_be_bytes(*number);
    }
}
