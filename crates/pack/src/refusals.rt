// The sentence of a table that the writer refuses: the line of the record, what its field has to be, and the word that is there.
// Line and word are found by a second walk over the text, since lists of numbers do not tell them.
use crate::names::{put_start, put_word};
use layout::sizes::MOST_SUBLINKS;
use layout::{Kind, Name, Order, Shape, places};
use table::Refusal;
use text::Text;
use words::Span;

// A line of a text, and its number from 1.
#[derive(Clone, Copy)]
struct Line<'a> {
    number: usize,
    bytes: &'a [u8],
}

// The line of record `row` of those that begin with this word; the last one where there are fewer.
#[tactic(auto, using(words::proofs::WordLaws::line_within))]
fn line_of<'a>(given: &'a [u8], keyword: &[u8], row: u64) -> Line<'a> {
    let mut line = Line {
        number: 0,
        bytes: b"",
    };
    let mut at = 0;
    let mut left = row;
    while at < given.len() {
        let end = words::line_end(given, at);
        line = Line {
            number: line.number + 1,
            bytes: &given[at..end],
        };
        if words::is_word(given, words::word_at(given, at, end), keyword) {
            if left == 0 {
                return line;
            }
            left -= 1;
        }
        at = end + 1;
    }
    line
}

// The word behind another, where the field has one: a field of 0 bits has none.
fn word_behind(line: &[u8], word: Span, shape: Shape) -> Span {
    if shape.width == 0 {
        word
    } else {
        words::word_at(line, word.to, line.len())
    }
}

// The last word of field k of a line: of a parent the row behind `after`.
fn word_of(line: &[u8], version: u64, section: usize, k: usize) -> &[u8] {
    let mut word = words::word_at(line, 0, line.len());
    for i in 0..=k {
        word = word_behind(line, word, notation::field_at(version, section, i));
    }
    if notation::field_at(version, section, k).name == Name::Parent {
        word = words::word_at(line, word.to, line.len());
    }
    words::bytes_of(line, word)
}

fn put_between(text: &mut Text<'_>, low: u64, high: u64) {
    text.put_bytes(b" is ");
    text.put_number(low);
    if low < high {
        text.put_bytes(b" to ");
        text.put_number(high);
    }
}

// A row or a sub-link: what the bits of its field hold. A parent is stored as its row plus 1.
fn put_reference(text: &mut Text<'_>, name: Name, width: usize) {
    match name {
        Name::Parent => text.put_bytes(b" is none, or after and a row below "),
        _ => text.put_bytes(b" is at most "),
    }
    text.put_number((1 << width.min(32)) - 1);
}

fn put_range(text: &mut Text<'_>, shape: Shape) {
    match shape.kind {
        Kind::Number(low, high) => put_between(text, low, high),
        Kind::Reference => put_reference(text, shape.name, shape.width),
        Kind::Padding => put_between(text, 0, 0),
        Kind::Gap => text.put_bytes(b" is 1, 2, 4, 8, 16, 32, 64 or 128"),
        Kind::LessOne => put_between(text, 1, MOST_SUBLINKS as u64),
        Kind::Speed => text.put_bytes(b" is 100 or 10"),
    }
}

// What a field has to be, and the word that is there instead.
fn put_field(text: &mut Text<'_>, line: &[u8], version: u64, section: usize, k: usize) {
    let shape = notation::field_at(version, section, k);
    notation::put_name(text, shape.name);
    put_range(text, shape);
    text.put_bytes(b", not ");
    put_word(text, word_of(line, version, section, k));
}

fn put_order(text: &mut Text<'_>, order: Order) {
    notation::put_name(text, order.lesser);
    text.put_bytes(b" is above ");
    notation::put_name(text, order.greater);
}

// The section by whose lines a record is found, and the field of such a line that a test is of: the header's version has a line, and so
// have its delays, which stand behind its counts.
fn said_in(section: usize, test: usize) -> (usize, usize) {
    match (section, test) {
        (0, 0) => (6, 0),
        (0, _) => (0, test.saturating_sub(places::SEND_LEAST)),
        _ => (section, test),
    }
}

// The line of a record that is refused, and what is wrong there. The fields' tests come first, then those of the pairs.
fn put_record(
    text: &mut Text<'_>,
    given: &[u8],
    version: u64,
    section: usize,
    row: u64,
    test: usize,
) {
    let (begun, field) = said_in(section, test);
    let line = line_of(given, notation::keyword(begun), row);
    put_start(text, line.number);
    let kind = layout::kind_of(version, section);
    let fields = layout::fields_in(kind);
    if test < fields {
        put_field(text, line.bytes, version, begun, field);
    } else {
        put_order(text, layout::order_at(kind, test - fields));
    }
    text.put_byte(b'\n');
}

pub(crate) fn put_refusal(text: &mut Text<'_>, given: &[u8], version: u64, refusal: Refusal) {
    match refusal {
        Refusal::Header { test } => put_record(text, given, version, 0, 0, test as usize),
        Refusal::Record { section, row, test } => {
            put_record(text, given, version, section as usize, row, test as usize)
        }
        _ => text.put_bytes(b"pack: the table is too long\n"),
    }
}
