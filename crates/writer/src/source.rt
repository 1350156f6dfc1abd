// The lists that a table is written from, section by section: their rows as numbers, and the bytes that they take.
// The header is section 0, of one row. A row is an array that has room for the longest record.
ghost use Rattle.std.specs.Prelude.{◌≡◌, ◌*◌, ◌^◌, ◌≤◌, ◌<◌, length, get_or};
ghost use Rattle.layout.specs.Layout.{size};
ghost use Rattle.layout.specs.Promises.{wide};
ghost use Rattle.table.specs.Lent.{lists_of};
ghost use Rattle.table.specs.Lists.{list_for, version_for, kind_for};
ghost use Rattle.table.specs.Write.{header_for, count, meant, meant_row, numbers_in, table_size};
ghost use Rattle.writer.specs.Writing.{HasRow};

use layout::places;
use layout::sizes::{HEADER_LIST, KINDS, LONGEST};
use table::Lists;

// The sections of a table: each has records of a kind of its own.
pub const SECTIONS: usize = KINDS;

// The list of a section.
#[tactic(auto, unfolding(table::specs::Lists::list_for), using(table::proofs::ListsLaws::no_list))]
pub fn list_of<'a>(lists: Lists<'a>, section: usize) -> &'a [u64]
    ensures { result.now ≡ list_for (lists_of lists.entry) section }
{
    match section {
        0 => lists.header,
        1 => lists.systems,
        2 => lists.vls,
        3 => lists.streams,
        4 => lists.ports,
        5 => lists.hops,
        _ => &[],
    }
}

// How many numbers the list of a section has for each row.
#[tactic(auto, using(crate::proofs::SectionLaws::numbers_record), unfolding(table::specs::Write::numbers_in))]
pub fn numbers_in(section: usize) -> usize
    ensures { result ≡ numbers_in section }
{
    match section {
        0 => HEADER_LIST,
        _ => layout::numbers_in(section),
    }
}

// How many rows a section has.
pub fn rows_in(lists: Lists<'_>, section: usize) -> usize
    requires { section < 6 }
    ensures is { result ≡ count (lists_of lists.entry) section }
    ensures few { result * numbers_in section ≤ 2 ^ 60 }
{
    let list = list_of(lists, section);
    match section {
        0 => 1,
        _ => list.len() / numbers_in(section),
    }
}

// A number of a list, 0 where the list ends before it.
fn number_at(list: &[u64], place: usize) -> u64
    ensures { result ≡ get_or list.now place 0 }
{
    if place < list.len() { list[place] } else { 0 }
}

// A number of the header's list.
fn header_number(lists: Lists<'_>, place: usize) -> u64
    ensures { result ≡ get_or (lists_of lists.entry).header place 0 }
{
    number_at(lists.header, place)
}

// The version that the header's list names.
pub fn version_of(lists: Lists<'_>) -> u64
    ensures { result ≡ version_for (lists_of lists.entry) }
{
    header_number(lists, places::LIST_VERSION)
}

// The kind of record that the table has in a section.
pub fn kind_of(lists: Lists<'_>, section: usize) -> usize
    ensures { result ≡ kind_for (lists_of lists.entry) section }
{
    layout::kind_of(version_of(lists), section)
}

// The header that the lists ask for.
fn header_row(lists: Lists<'_>) -> [u64; LONGEST]
    ensures { result ≡ wide (header_for (lists_of lists.entry)) }
{
    [
        header_number(lists, places::LIST_VERSION),
        rows_in(lists, 1) as u64,
        rows_in(lists, 2) as u64,
        rows_in(lists, 3) as u64,
        rows_in(lists, 4) as u64,
        rows_in(lists, 5) as u64,
        header_number(lists, places::LIST_SEND_LEAST),
        header_number(lists, places::LIST_SEND_GREATEST),
        header_number(lists, places::LIST_RECEIVE_LEAST),
        header_number(lists, places::LIST_RECEIVE_GREATEST),
        0,
    ]
}

// These numbers, and then zeros. Place by place: a loop over the numbers is compiled to a call of C's memcpy, which the suppliers' archive asks of nobody.
#[tactic(auto, using(layout::proofs::RowLaws::wide_next, std::proofs::lemmas::List::take_all))]
fn widened(numbers: &[u64]) -> [u64; LONGEST]
    requires { length numbers.now ≤ 11 }
    ensures { result ≡ wide numbers.now }
{
    let mut row = [0; LONGEST];
    for k in 0..LONGEST {
        row[k] = number_at(numbers, k);
    }
    row
}

// Record i of a section's list.
#[tactic(auto, using(crate::proofs::SectionLaws::record_inside))]
fn record_row(lists: Lists<'_>, section: usize, i: usize) -> [u64; LONGEST]
    requires { HasRow (lists_of lists) section i × (0 < section) }
    ensures { result ≡ wide (meant_row (lists_of lists.entry) section i) }
{
    let list = list_of(lists, section);
    let n = layout::numbers_in(section);
    let first = i * n;
    widened(&list[first..first + n])
}

// Row i of a section: what the table says there.
pub fn row_of(lists: Lists<'_>, section: usize, i: usize) -> [u64; LONGEST]
    requires { HasRow (lists_of lists) section i }
    ensures { result ≡ wide (meant (lists_of lists.entry) section i) }
{
    match section {
        0 => header_row(lists),
        _ => record_row(lists, section, i),
    }
}

// The bytes that a section takes.
pub fn section_bytes(lists: Lists<'_>, section: usize) -> usize
    requires { section < 6 }
    ensures is { result ≡ count (lists_of lists.entry) section * size (kind_for (lists_of lists.entry) section) }
    ensures few { result ≤ 2 ^ 61 }
{
    rows_in(lists, section) * layout::bytes_in(kind_of(lists, section))
}

// The bytes that the table takes.
pub fn table_bytes(lists: Lists<'_>) -> usize
    ensures { result ≡ table_size (lists_of lists.entry) }
{
    let mut bytes = 0;
    for section in 0..SECTIONS {
        bytes += section_bytes(lists, section);
    }
    bytes
}
