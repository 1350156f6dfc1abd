// The writer: cleared bytes, and on acceptance the table of the lists, one section after the other.
// `layout` turns a row to stored numbers and puts it into the bytes. What it promises is `Writes` of crate `table`.
// No function that `write` calls is one of std's, as those behind `?` and `fill` are: a program that holds all of its code (order/proofs/There) can hold none of std's.
#![tactic(auto)]

mod refusals;
mod source;

ghost use Rattle.std.specs.Prelude.{◌≡◌, ◌*◌, ◌<◌, length, replicate};
ghost use Rattle.bits.specs.Rows.{put_rows};
ghost use Rattle.layout.specs.Layout.{widths};
ghost use Rattle.table.specs.Lent.{lists_of};
ghost use Rattle.table.specs.Lists.{kind_for};
ghost use Rattle.table.specs.Write.{count, packed, written_by, Writes};
ghost use Rattle.writer.specs.Writing.{HasRoom, stored, Fillable};

use crate::refusals::tested;
use crate::source::{SECTIONS, kind_of, row_of, rows_in, section_bytes};
use layout::Way;
use table::{Lists, Refusal};

// Makes every byte 0.
pub fn clear(out: &mut [u8])
    ensures { out.new ≡ replicate (length out.old) 0 }
{
    for byte in out.iter_mut() {
        *byte = 0;
    }
}

// Puts the rows of a section from byte `at` on, where there is room for them.
fn put_section(lists: Lists<'_>, section: usize, at: usize, out: &mut [u8])
    requires { (section < 6) × HasRoom out.old (kind_for (lists_of lists) section) at (count (lists_of lists) section) }
    ensures { out.new ≡ put_rows out.old (8 * at) (widths (kind_for (lists_of lists.entry) section)) (stored (lists_of lists.entry) section (count (lists_of lists.entry) section)) }
{
    let kind = kind_of(lists, section);
    let size = layout::bytes_in(kind);
    for i in 0..rows_in(lists, section) {
        let row = layout::converted_row(Way::Writing, kind, &row_of(lists, section, i));
        layout::put_row(out, 8 * (at + i * size), kind, row);
    }
}

// Puts the whole table into cleared bytes, as many as it takes.
fn fill(lists: Lists<'_>, out: &mut [u8])
    requires { Fillable (lists_of lists) out.old }
    ensures { out.new ≡ packed (lists_of lists.entry) }
{
    let mut at = 0;
    for section in 0..SECTIONS {
        put_section(lists, section, at, out);
        at += section_bytes(lists, section);
    }
}

// The table of the lists, and how many bytes it has: the header's list has the version and the delays.
pub fn write(lists: Lists<'_>, out: &mut [u8]) -> Result<usize, Refusal>
    ensures { Writes (lists_of lists.entry) (length out.old) (written_by result) out.new }
{
    clear(out);
    match tested(lists, out.len()) {
        Ok(bytes) => {
            fill(lists, &mut out[..bytes]);
            Ok(bytes)
        }
        Err(refusal) => Err(refusal),
    }
}
