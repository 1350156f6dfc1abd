// Tables as text, read: the numbers of each section in the list that is lent for it, or the first mistake of a text.
// Every public routine answers for all input.
#![tactic(auto)]

mod filling;
mod lines;
mod mistakes;

ghost use Rattle.std.specs.Prelude.{◌≡◌, ◌∷◌, length, get_or, replicate};
ghost use Rattle.table.specs.Lent.{lists_before, lists_after};
ghost use Rattle.notation.specs.Meant.{text_lines, section_in};
ghost use Rattle.notation.specs.Steps.{fields_of};
ghost use Rattle.notation.specs.Fitted.{fitted};
ghost use Rattle.parser.specs.Lines.{list_with, place_with};
ghost use Rattle.parser.specs.Tables.{most_for, ReadsTo};

use crate::filling::put_numbers;
pub use filling::{fill, version_of};
use layout::sizes;
pub use mistakes::{Fault, Mistake, mistake_of};
use table::ListsMut;

// How many lines each section may have, by the room of its list: one of delays, where the version and they have room.
fn most_in(rooms: [usize; 6]) -> [usize; 7]
    ensures { result ≡ most_for (λ s. get_or rooms s 0) }
{
    [
        usize::from(sizes::HEADER_LIST <= rooms[0]),
        rooms[1] / sizes::SYSTEM,
        rooms[2] / sizes::VL,
        rooms[3] / sizes::STREAM,
        rooms[4] / sizes::PORT,
        rooms[5] / sizes::HOP,
        1,
    ]
}

// The version and the delays.
fn put_header(text: &[u8], version: u64, list: &mut [u64]) -> usize
    ensures behind { result ≡ place_with (replicate (length list.old) 0) 0
        (version ∷ fitted (fields_of 0) 4 (section_in version 0 (text_lines text.now))) }
    ensures put { list.new ≡ list_with (replicate (length list.old) 0) 0
        (version ∷ fitted (fields_of 0) 4 (section_in version 0 (text_lines text.now))) }
{
    let mut row = [version; sizes::HEADER_LIST];
    fill(text, version, 0, &mut row[1..]);
    list.fill(0);
    put_numbers(list, 0, &row)
}

// Reads a text to the lists of its sections, and answers how many numbers each has: on a mistake every lent place is zero.
pub fn read(text: &[u8], lists: ListsMut<'_>) -> Result<[usize; 6], Mistake>
    ensures { ReadsTo text.now (lists_before lists.entry) result (lists_after lists.exit) }
{
    let rooms = [
        lists.header.len(),
        lists.systems.len(),
        lists.vls.len(),
        lists.streams.len(),
        lists.ports.len(),
        lists.hops.len(),
    ];
    let version = version_of(text);
    if let Some(mistake) = mistake_of(text, version, most_in(rooms)) {
        lists.header.fill(0);
        lists.systems.fill(0);
        lists.vls.fill(0);
        lists.streams.fill(0);
        lists.ports.fill(0);
        lists.hops.fill(0);
        return Err(mistake);
    }
    Ok([
        put_header(text, version, lists.header),
        fill(text, version, 1, lists.systems),
        fill(text, version, 2, lists.vls),
        fill(text, version, 3, lists.streams),
        fill(text, version, 4, lists.ports),
        fill(text, version, 5, lists.hops),
    ])
}
