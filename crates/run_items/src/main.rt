// Reads many tables to analyse (T) or unpack (U) and many lists to write (W), one item after the other, and writes each answer.
// The items and the answers come from an implementation of 01 that shares nothing with this one; tests/held says how each is laid out.
#![tactic(auto)]

mod input;
mod output;
mod space;
mod unpacking;

use crate::input::{read_byte, read_bytes, read_length, read_lengths};
use crate::output::{Output, TEXT, answer_of, rest};
use crate::space::Space;
use crate::unpacking::unpack_item;
use std::io::Stdin;
use table::Refusal;

const MOST_BYTES: usize = 16_384;

// The numbers of a row.
const ROW: usize = 6;

const MOST_NUMBERS: usize = 6_150;

// What every lent place holds before a call, so that one that is not written shows.
const BEFORE: u64 = 7;

const BEFORE_BYTE: u8 = 7;

// The first n of a list, or all where it has fewer.
fn first<T>(list: &[T], n: usize) -> &[T] {
    &list[..n.min(list.len())]
}

fn first_mut<T>(list: &mut [T], n: usize) -> &mut [T] {
    let n = n.min(list.len());
    &mut list[..n]
}

// ---- a table to analyse

fn put_analysed(rows: Result<usize, Refusal>, res: &[u64]) {
    let mut text = [0; TEXT];
    let mut out = Output::new(&mut text);
    out.put_answer(b'T', rows.err());
    let used = rows.unwrap_or(0).saturating_mul(ROW);
    for row in first(res, used).chunks_exact(ROW) {
        out.put_row(row);
    }
    out.end(rest(res, used));
}

fn analyse_item(stdin: Stdin) {
    let room = read_length(stdin, MOST_NUMBERS);
    let n = read_length(stdin, MOST_BYTES);
    let mut bytes = [0; MOST_BYTES];
    read_bytes(stdin, &mut bytes[..n]);
    let mut res = [BEFORE; MOST_NUMBERS];
    let rows = analysis::analyse(&bytes[..n], &mut res[..room]);
    put_analysed(rows, &res[..room]);
}

// ---- lists to write

// The bytes where the lists are accepted.
fn put_written(length: Result<usize, Refusal>, bytes: &[u8]) {
    let n = length.unwrap_or(0);
    let answer = answer_of(length.err());
    let mut text = [0; TEXT];
    let mut out = Output::new(&mut text);
    out.put_first(b'W', &[answer.number, answer.section, answer.row, n as u64]);
    if length.is_ok() {
        out.put_hex(first(bytes, n));
    }
    out.end(rest(bytes, n));
}

fn write_item(stdin: Stdin) {
    let lengths = read_lengths(stdin);
    let room = read_length(stdin, MOST_BYTES);
    let mut space = Space::UNWRITTEN;
    space.read(stdin, lengths);
    let mut bytes = [BEFORE_BYTE; MOST_BYTES];
    let length = writer::write(space.first(lengths), &mut bytes[..room]);
    put_written(length, &bytes[..room]);
}

// An item of this kind; any other ends the run.
fn item(stdin: Stdin, kind: u8) -> bool {
    match kind {
        b'T' => analyse_item(stdin),
        b'U' => unpack_item(stdin),
        b'W' => write_item(stdin),
        _ => return false,
    }
    true
}

fn main(rt: HostRuntime) {
    for _ in 0..1_000_000 {
        if !item(rt.stdin(), read_byte(rt.stdin())) {
            return;
        }
    }
}
