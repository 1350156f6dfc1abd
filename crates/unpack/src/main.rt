// Reads a packed table from standard input and writes it as text, a line for each record; or the word refused with number, section and row.
// What the words are, `printer` says; here is what prints: each line is proved to be that of its record. A read or a write that fails is
// said on standard error, and nothing is written after it.
#![tactic(auto)]

ghost use Rattle.std.specs.Prelude.{[], ◌∷◌, ◌++◌, ◌≡◌, ◌+◌, ◌*◌, ◌≤◌, length};
ghost use Rattle.layout.specs.Rows.{listed};
ghost use Rattle.table.specs.Lent.{lists_of};
ghost use Rattle.words.specs.Printed.{line_of};
ghost use Rattle.notation.specs.Printed.{line_words, record_in};
ghost use Rattle.unpack.specs.Held.{Held};

use console::NotWritten;
use layout::sizes;
use table::{Counts, Lists, ListsMut};
use text::Text;

// One byte more than the longest table, so that a longer one is seen to be too long.
const MOST_BYTES: usize = sizes::TABLE + 1;

// The longest line: a keyword of seven bytes, seven fields of at most 27 with their spaces, and the line feed.
const LINE: usize = 197;

// The line of the version, which stands behind those of the sections; that of the delays is section 0's.
const VERSION_LINE: usize = 6;

// The line of these numbers, in the room that is lent for it.
fn numbers_line<'a>(
    version: u64,
    section: usize,
    numbers: &[u64],
    room: &'a mut [u8; LINE],
) -> &'a [u8]
    ensures { result.now ≡ line_of (line_words version section numbers.now) ++ (10 ∷ []) }
{
    let mut text = Text::new(room);
    printer::put_record(&mut text, version, section, numbers);
    text.written()
}

// The line of record i of a section's list.
fn record_line<'a>(
    version: u64,
    section: usize,
    list: &[u64],
    i: usize,
    room: &'a mut [u8; LINE],
) -> &'a [u8]
    requires { i * listed section + listed section ≤ length list.now }
    ensures { result.now ≡ line_of (line_words version section (record_in list.now section i)) ++ (10 ∷ []) }
{
    let each = layout::numbers_in(section);
    let start = i * each;
    numbers_line(version, section, &list[start..start + each], room)
}

fn write_numbers(version: u64, section: usize, numbers: &[u64]) -> Result<(), NotWritten> {
    console::write(numbers_line(version, section, numbers, &mut [0; LINE]))
}

// Writes n records of a section's list, up to the first write that fails.
fn write_section(version: u64, section: usize, list: &[u64], n: usize) -> Result<(), NotWritten>
    requires { n * listed section ≤ length list.now }
{
    for i in 0..n {
        console::write(record_line(version, section, list, i, &mut [0; LINE]))?;
    }
    Ok(())
}

// Writes the lines of the version and of the delays, and then those of the records of every section.
fn write_lists(lists: Lists<'_>, counts: Counts) -> Result<(), NotWritten>
    requires { Held counts (lists_of lists) }
{
    let version = lists.header[0];
    write_numbers(version, VERSION_LINE, &[version])?;
    write_numbers(version, 0, &lists.header[1..])?;
    write_section(version, 1, lists.systems, counts.systems)?;
    write_section(version, 2, lists.vls, counts.vls)?;
    write_section(version, 3, lists.streams, counts.streams)?;
    write_section(version, 4, lists.ports, counts.ports)?;
    write_section(version, 5, lists.hops, counts.hops)
}

// Unpacks a table and writes it as text.
fn write_text(table: &[u8]) -> Result<(), NotWritten> {
    let mut header = [0; sizes::HEADER_LIST];
    let mut systems = [0; sizes::SYSTEMS];
    let mut vls = [0; sizes::VLS];
    let mut streams = [0; sizes::STREAMS];
    let mut ports = [0; sizes::PORTS];
    let mut hops = [0; sizes::HOPS];
    let lists = ListsMut {
        header: &mut header,
        systems: &mut systems,
        vls: &mut vls,
        streams: &mut streams,
        ports: &mut ports,
        hops: &mut hops,
    };
    match unpacker::unpack(table, lists) {
        Ok(counts) => write_lists(
            Lists {
                header: &header,
                systems: &systems,
                vls: &vls,
                streams: &streams,
                ports: &ports,
                hops: &hops,
            },
            counts,
        ),
        Err(refusal) => console::write(text::refusal_line(
            refusal.answer(),
            &mut [0; text::REFUSAL],
        )),
    }
}

fn main(rt: HostRuntime) {
    let mut bytes = [0; MOST_BYTES];
    let Ok(used) = console::read_input(rt.stdin(), &mut bytes) else {
        return console::give_up(b"unpack: the table could not be read\n");
    };
    if write_text(&bytes[..used]).is_err() {
        console::give_up(b"unpack: the text could not be written whole\n");
    }
}
