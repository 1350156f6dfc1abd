// Prints the fields of the packed table as docs/TABLE.md has them: each section's records, fields and pairs in order, by their tests.
// Numbers come from the layout that the reader goes by; only the words stand here. The lines are compared with stdout, and TABLE.md with those.
#![tactic(auto)]

mod wording;

use console::Heedless;
use layout::sizes::{KINDS, MOST_ROWS};
use layout::{Kind, Name, Shape, Way};
use std::io;

// The version whose sections are printed.
const VERSION: u64 = 1;

// Codes are less than this.
const MOST_CODES: u64 = 256;

fn bytes(rt: &impl Print, n: usize) -> io::Result<()> {
    match n {
        1 => print!(rt; "1 byte"),
        _ => print!(rt; "{n} bytes"),
    }
}

// What a field is called.
fn name(rt: &impl Print, name: Name) -> io::Result<()> {
    rt.write_all(notation::name_of(name))
}

// ---- a code's values

// What a stored code means; 0 where it is out of range, for no code stands for 0.
fn meaning(kind: usize, k: usize, code: u64) -> u64 {
    layout::converted_number(Way::Reading, kind, k, code)
}

// The last code in range.
fn last_code(kind: usize, k: usize) -> u64 {
    (0..MOST_CODES)
        .rev()
        .find(|&code| 0 < meaning(kind, k, code))
        .unwrap_or(0)
}

fn meanings(rt: &impl Print, kind: usize, k: usize) -> io::Result<()> {
    print!(rt; "code of {}", meaning(kind, k, 0))?;
    for code in 1..=last_code(kind, k) {
        print!(rt; ", {}", meaning(kind, k, code))?;
    }
    Ok(())
}

// ---- a line for each test

fn range(rt: &impl Print, low: u64, high: u64) -> io::Result<()> {
    if low < high {
        print!(rt; "{low} to {high}")
    } else {
        print!(rt; "{low}")
    }
}

fn stored(rt: &impl Print, kind: usize, k: usize, shape: Shape) -> io::Result<()> {
    match shape.kind {
        Kind::Number(low, high) => range(rt, low, high),
        Kind::Reference => print!(rt; "any"),
        Kind::Padding => range(rt, 0, 0),
        Kind::Gap | Kind::LessOne | Kind::Speed => range(rt, 0, last_code(kind, k)),
    }
}

fn unit(rt: &impl Print, kind: usize, k: usize, shape: Shape) -> io::Result<()> {
    match shape.kind {
        Kind::Gap => {
            meanings(rt, kind, k)?;
            print!(rt; " ms")
        }
        Kind::Speed => {
            meanings(rt, kind, k)?;
            print!(rt; " Mbit/s")
        }
        _ => print!(rt; "{}", wording::unit(shape.name)),
    }
}

fn field(rt: &impl Print, kind: usize, k: usize) -> io::Result<()> {
    let shape = layout::shape_at(kind, k);
    print!(rt; "| {k} | ")?;
    name(rt, shape.name)?;
    print!(rt; " | {} | ", shape.width)?;
    stored(rt, kind, k, shape)?;
    print!(rt; " | ")?;
    unit(rt, kind, k, shape)?;
    println!(rt; " |")
}

fn pair(rt: &impl Print, kind: usize, k: usize, test: usize) -> io::Result<()> {
    let order = layout::order_at(kind, k);
    print!(rt; "| {test} | ")?;
    name(rt, order.lesser)?;
    print!(rt; " is at most ")?;
    name(rt, order.greater)?;
    println!(rt; " | | | |")
}

// The fields' tests come first, then those of the pairs.
#[tactic(auto, using(layout::proofs::LayoutLaws::few_fields, layout::proofs::LayoutLaws::few_orders))]
fn lines(rt: &impl Print, kind: usize) -> io::Result<()> {
    let fields = layout::fields_in(kind);
    for k in 0..fields {
        field(rt, kind, k)?;
    }
    for k in 0..layout::orders_in(kind) {
        pair(rt, kind, k, fields + k)?;
    }
    Ok(())
}

// ---- a section

// How many records a section has at most, by the header's field that counts them; the header is one.
fn most(rt: &impl Print, section: usize) -> io::Result<()> {
    if section == 0 {
        return print!(rt; "once");
    }
    match layout::shape_at(layout::kind_of(VERSION, 0), section).kind {
        Kind::Number(_, high) => print!(rt; "at most {high}"),
        _ => Ok(()),
    }
}

fn heading(rt: &impl Print, section: usize, kind: usize) -> io::Result<()> {
    print!(rt; "### Section {section}, {}: ", wording::section(section))?;
    bytes(rt, layout::bytes_in(kind))?;
    print!(rt; ", ")?;
    most(rt, section)?;
    println!(rt; "\n\n| test | field | bits | stored | unit |\n|---|---|---|---|---|")
}

fn section(rt: &impl Print, section: usize) -> io::Result<()> {
    let kind = layout::kind_of(VERSION, section);
    heading(rt, section, kind)?;
    lines(rt, kind)?;
    println!(rt; "")
}

fn limits(rt: &impl Print) -> io::Result<()> {
    print!(rt; "The longest table has ")?;
    bytes(rt, layout::longest_table())?;
    println!(rt; ". A result has at most {MOST_ROWS} rows.")
}

fn main() {
    for s in 0..KINDS {
        let _ = section(&Heedless, s);
    }
    let _ = limits(&Heedless);
}
