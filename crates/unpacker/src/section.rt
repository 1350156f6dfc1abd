// A section of a table: its rows, the refusal 4, and the list that its records are written to.
// `layout` turns the stored numbers of a row to what they mean.
ghost use Rattle.std.specs.Prelude.{◌≡◌, ◌<◌, length};
ghost use Rattle.layout.specs.Promises.{wide};
ghost use Rattle.layout.specs.Rows.{listed};
ghost use Rattle.table.specs.Sections.{kind_in, rows, from, row, record_of, records, lent};

use crate::{clear, fewer};
use layout::Way;
use layout::sizes::LONGEST;
use table::Refusal;

#[derive(Drop)]
pub(crate) struct Section<'a> {
    pub(crate) table: &'a [u8],
    pub(crate) section: usize,
    pub(crate) kind: usize,
    // the byte where it begins
    pub(crate) at: usize,
    // its rows
    pub(crate) count: usize,
    ghost known: { section < 6 },
    ghost of_kind: { kind ≡ kind_in table.now section },
    ghost begins: { at ≡ from table.now section },
    ghost counted: { count ≡ rows table.now section },
}

impl Section<'_> {
    ghost use Rattle.table.specs.Refusals.{said};
    ghost use Rattle.unpacker.specs.Unpacking.{row_answer, answer_in, fitting_in};

    // Reads the stored numbers of row i to a lent row.
    fn read(&self, i: usize, raw: &mut [u64; LONGEST])
        requires { i < 4096 }
        ensures { raw.new ≡ wide (row self.now.table.now self.now.section i) }
    {
        let at = self.at + i * layout::bytes_in(self.kind);
        layout::read_row(self.table, 8 * at, self.kind, raw);
    }

    // Refusal 4 for the first bad row.
    pub(crate) fn test(&self) -> Result<(), Refusal>
        ensures { said result ≡ answer_in self.now.table.now self.now.section }
    {
        for i in 0..self.count {
            if let Err(refusal) = self.test_row(i) {
                return Err(refusal);
            }
        }
        Ok(())
    }

    // Refusal 4 for a row.
    fn test_row(&self, i: usize) -> Result<(), Refusal>
        requires { i < 4096 }
        ensures { said result ≡ row_answer self.now.table.now self.now.section i }
    {
        let mut raw = [0u64; LONGEST];
        self.read(i, &mut raw);
        match layout::fault_of(Way::Reading, self.kind, &raw) {
            Some(test) => Err(Refusal::Record {
                section: self.section as u64,
                row: i as u64,
                test,
            }),
            None => Ok(()),
        }
    }

    // The records, as many as the list has room for, and zeros.
    pub(crate) fn fill(&self, out: &mut [u64])
        ensures { out.new ≡ lent (length out.old) (records self.now.table.now self.now.section (fitting_in self.now.table.now self.now.section (length out.old))) }
    {
        clear(out);
        let n = layout::numbers_in(self.section);
        for i in 0..fewer(self.count, out.len() / n) {
            self.put(i, &mut out[i * n..(i + 1) * n]);
        }
    }

    // What the stored numbers of row i mean, padding left out.
    fn put(&self, i: usize, numbers: &mut [u64])
        requires low { i < 4096 }
        requires long { length numbers.old ≡ listed self.now.section }
        ensures { numbers.new ≡ record_of self.now.table.now self.now.section i }
    {
        let mut raw = [0u64; LONGEST];
        self.read(i, &mut raw);
        for (k, number) in numbers.iter_mut().enumerate() {
            *number = layout::converted_number(Way::Reading, self.kind, k, raw[k]);
        }
    }
}
