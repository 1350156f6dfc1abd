// A table's header, read once: what it says of the sections, the refusals 1 to 3, and whether lists have room for what it counts.
// Any bytes have one: where there are fewer than 14 its fields are zeros.
ghost use Rattle.std.specs.Prelude.{◌≡◌, ◌<◌, ◌≤◌, length};
ghost use Rattle.layout.specs.Layout.{header_names};
ghost use Rattle.layout.specs.Promises.{wide};
ghost use Rattle.table.specs.Sections.{header_row, version, kind_in, rows, from, records, lent};

use crate::section::Section;
use crate::{clear, fewer};
use layout::sizes::{HEADER_BYTES, HEADER_LIST, LONGEST};
use layout::{Way, places};
use table::{Counts, Refusal};

#[derive(Drop)]
pub(crate) struct Header<'a> {
    table: &'a [u8],
    row: [u64; LONGEST],
    ghost read: { row ≡ wide (header_row table.now) },
}

impl<'a> Header<'a> {
    ghost use Rattle.table.specs.Lists.{header_of, unpacked, list_for};
    ghost use Rattle.table.specs.Refusals.{said};
    ghost use Rattle.unpacker.specs.Unpacking.{counts_in, table_answer, last_answer, judged_answer, room_answer, fitting_in};

    // Of the first 14 bytes alone: a table that is too long for a row to be read from it has a header all the same.
    // A call by itself, as `judge` is: otherwise the rows of both would stand on the stack of `unpack`, below what it fills the lists with.
    #[inline(never)]
    pub(crate) fn of(table: &'a [u8]) -> Header<'a>
        ensures { result.table.now ≡ table.now }
    {
        let mut row = [0u64; LONGEST];
        layout::read_row(&table[..fewer(table.len(), HEADER_BYTES)], 0, 0, &mut row);
        Header { table, row }
    }

    fn version(&self) -> u64
        ensures { result ≡ version self.now.table.now }
    {
        self.row[places::VERSION]
    }

    // The kind of record that the table has in a section.
    fn kind(&self, section: usize) -> usize
        ensures { result ≡ kind_in self.now.table.now section }
    {
        layout::kind_of(self.version(), section)
    }

    // The header is one row; field s of it counts the rows of section s.
    pub(crate) fn count(&self, section: usize) -> usize
        requires { section < 6 }
        ensures { result ≡ rows self.now.table.now section }
    {
        if section == 0 {
            1
        } else {
            self.row[section] as usize
        }
    }

    pub(crate) fn counts(&self) -> Counts
        ensures { result ≡ counts_in self.now.table.now }
    {
        Counts {
            systems: self.count(1),
            vls: self.count(2),
            streams: self.count(3),
            ports: self.count(4),
            hops: self.count(5),
        }
    }

    // The byte where a section begins: sections follow one another, and section 6 would begin where the table ends.
    fn start(&self, section: usize) -> usize
        requires { section < 7 }
        ensures { result ≡ from self.now.table.now section }
    {
        let mut at = 0;
        for s in 0..section {
            at += self.count(s) * layout::bytes_in(self.kind(s));
        }
        at
    }

    fn section(&self, section: usize) -> Section<'a>
        requires { section < 6 }
        ensures table { result.table.now ≡ self.now.table.now }
        ensures number { result.section ≡ section }
    {
        Section {
            table: self.table,
            section,
            kind: self.kind(section),
            at: self.start(section),
            count: self.count(section),
        }
    }

    // The version and the delays.
    pub(crate) fn list(&self) -> [u64; HEADER_LIST]
        ensures { result ≡ header_of self.now.table.now }
    {
        let row = layout::converted_row(Way::Reading, 0, &self.row);
        [
            row[places::VERSION],
            row[places::SEND_LEAST],
            row[places::SEND_GREATEST],
            row[places::RECEIVE_LEAST],
            row[places::RECEIVE_GREATEST],
        ]
    }

    // The same in a lent list, and zeros behind.
    pub(crate) fn fill_list(&self, out: &mut [u64])
        requires { length header_names ≤ length out.old }
        ensures { out.new ≡ lent (length out.old) (header_of self.now.table.now) }
    {
        clear(out);
        let list = self.list();
        for k in 0..HEADER_LIST {
            out[k] = list[k];
        }
    }

    // The records of a section, as many as the list has room for, and zeros.
    pub(crate) fn fill_section(&self, section: usize, out: &mut [u64])
        requires { section < 6 }
        ensures { out.new ≡ lent (length out.old) (records self.now.table.now section (fitting_in self.now.table.now section (length out.old))) }
    {
        self.section(section).fill(out);
    }

    // The first of the refusals 1 to 4.
    pub(crate) fn test(&self) -> Result<(), Refusal>
        ensures { said result ≡ table_answer self.now.table.now }
    {
        if self.table.len() < HEADER_BYTES {
            return Err(Refusal::TooShort);
        }
        if let Some(test) = layout::fault_of(Way::Reading, 0, &self.row) {
            return Err(Refusal::Header { test });
        }
        self.test_sections()
    }

    // Refusals 3 and 4.
    fn test_sections(&self) -> Result<(), Refusal>
        ensures { said result ≡ last_answer self.now.table.now }
    {
        if self.table.len() != self.start(6) {
            return Err(Refusal::WrongLength);
        }
        for s in 1..6 {
            if let Err(refusal) = self.section(s).test() {
                return Err(refusal);
            }
        }
        Ok(())
    }

    // How many numbers the rows of a section take in its list.
    fn numbers(&self, section: usize) -> usize
        requires { section < 6 }
        ensures { result ≡ length (list_for (unpacked self.now.table.now) section) }
    {
        if section == 0 {
            HEADER_LIST
        } else {
            self.count(section) * layout::numbers_in(section)
        }
    }

    // Refusal 11 where a list has room for fewer numbers.
    fn test_room(&self, room: &[usize; 6]) -> Result<(), Refusal>
        ensures { said result ≡ room_answer self.now.table.now room.now }
    {
        for s in 0..6 {
            if room[s] < self.numbers(s) {
                return Err(Refusal::NoRoom);
            }
        }
        Ok(())
    }

    // The unpacker's answer: the table's own, and 11 behind it.
    #[inline(never)]
    pub(crate) fn judge(&self, room: &[usize; 6]) -> Result<(), Refusal>
        ensures { said result ≡ judged_answer self.now.table.now room.now }
    {
        if let Err(refusal) = self.test() {
            return Err(refusal);
        }
        self.test_room(room)
    }
}
