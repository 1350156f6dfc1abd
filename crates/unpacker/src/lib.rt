// The unpacker: the records of an accepted table as lists of numbers, and zeros behind them or on a refusal.
// Bytes come in from anywhere: it answers for all of them. What it promises is `Unpacks` of crate `table`; the parts of it are public as well, for who keeps the lists in one place.
// Only the language and this repository's own functions are called: no `?`, `min`, `fill` or `copy_from_slice`, as std's code is not at hand where a program is put together from the code (`order/proofs/There`).
#![tactic(auto)]

mod header;
mod section;

ghost use Rattle.std.specs.Prelude.{◌≡◌, length, min, replicate};
ghost use Rattle.base.specs.Tabulate.{tabulate};
ghost use Rattle.table.specs.Lent.{lists_before, lists_after};
ghost use Rattle.table.specs.Lists.{header_of};
ghost use Rattle.table.specs.Refusals.{said};
ghost use Rattle.table.specs.Sections.{rows, records, lent};
ghost use Rattle.table.specs.Unpack.{Unpacks, unpacked_by};
ghost use Rattle.unpacker.specs.Unpacking.{counts_in, table_answer, fitting};

use header::Header;
use layout::sizes::HEADER_LIST;
use table::{Counts, ListsMut, Refusal};

// The header's version and delays, and the table's records, section by section: gaps in milliseconds, speeds in Mbit/s, no padding. Gives the refusals 1 to 4 and 11.
pub fn unpack(table: &[u8], lists: ListsMut<'_>) -> Result<Counts, Refusal>
    ensures { Unpacks table.now (lists_before lists.entry) (unpacked_by result) (lists_after lists.exit) }
{
    let ListsMut {
        header,
        systems,
        vls,
        streams,
        ports,
        hops,
    } = lists;
    let read = Header::of(table);
    let room = [
        header.len(),
        systems.len(),
        vls.len(),
        streams.len(),
        ports.len(),
        hops.len(),
    ];
    if let Err(refusal) = read.judge(&room) {
        clear(header);
        clear(systems);
        clear(vls);
        clear(streams);
        clear(ports);
        clear(hops);
        return Err(refusal);
    }
    read.fill_list(header);
    read.fill_section(1, systems);
    read.fill_section(2, vls);
    read.fill_section(3, streams);
    read.fill_section(4, ports);
    read.fill_section(5, hops);
    Ok(read.counts())
}

// The table's own refusal, whatever its lists will hold: the first of 1 to 4.
pub fn own_answer(table: &[u8]) -> Result<(), Refusal>
    ensures { said result ≡ table_answer table.now }
{
    Header::of(table).test()
}

// The rows of each section, as the header counts them; the header is one row.
pub fn counts_of(table: &[u8]) -> [usize; 6]
    ensures { result ≡ tabulate (rows table.now) 6 }
{
    let header = Header::of(table);
    [
        header.count(0),
        header.count(1),
        header.count(2),
        header.count(3),
        header.count(4),
        header.count(5),
    ]
}

// How many records the header counts in each section.
pub fn counts(table: &[u8]) -> Counts
    ensures { result ≡ counts_in table.now }
{
    Header::of(table).counts()
}

// The header's numbers: the version and the delays.
pub fn header_list(table: &[u8]) -> [u64; HEADER_LIST]
    ensures { result ≡ header_of table.now }
{
    Header::of(table).list()
}

// The records of a section, as many as the list has room for, and zeros; nothing but zeros where there is no such section.
pub fn fill_section(table: &[u8], section: usize, out: &mut [u64])
    ensures { out.new ≡ lent (length out.old) (records table.now section (fitting table.now section (length out.old))) }
{
    match section {
        1..=5 => Header::of(table).fill_section(section, out),
        _ => clear(out),
    }
}

// Zeros in every place of a lent list.
pub fn clear(out: &mut [u64])
    ensures { out.new ≡ replicate (length out.old) 0 }
{
    for number in out.iter_mut() {
        *number = 0;
    }
}

fn fewer(a: usize, b: usize) -> usize
    ensures { result ≡ min a b }
{
    if a <= b { a } else { b }
}
