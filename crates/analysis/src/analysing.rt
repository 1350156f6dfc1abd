// The analysis, from the bytes of a table to its rows or its refusal: the figures, which give the answer, and then the rows.
// The lent result is cleared first, so that a refusal leaves zeros, and an acceptance zeros behind the rows.
ghost use Rattle.std.specs.Prelude.{length};
ghost use Rattle.analysis.specs.Analysis.{Analyses, analysed_by};

use crate::results;
use figures::{Figures, ROW};
use sheet::{Accepted, Sheet};
use table::Refusal;

// How many rows were written.
pub fn analyse(table: &[u8], res: &mut [u64]) -> Result<usize, Refusal>
    ensures { Analyses table.now (length res.old) (analysed_by result) res.new }
{
    unpacker::clear(res);
    let mut sheet = Sheet::blank();
    let mut found = Figures::blank();
    // No `?`: it calls std, whose code cannot be linked (order/specs/There).
    if let Err(refusal) = figures::figures(table, res.len(), &mut sheet, &mut found) {
        return Err(refusal);
    }
    let end = results::put_rows(Accepted::new(&sheet), &found, res);
    Ok(end / ROW)
}
