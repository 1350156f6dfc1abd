// The writer's answers 2, 4 and 11, in that order: the first that refuses.
// `layout` tests each row; the first bad one of the lowest section is the one that is told.
ghost use Rattle.std.specs.Prelude.{◌≡◌, ◌<◌, ◌≤◌, IfOk};
ghost use Rattle.table.specs.Lent.{lists_of};
ghost use Rattle.table.specs.Refusals.{said, given};
ghost use Rattle.table.specs.Write.{whole_list, whole, write2, write4, table_size, write_answer};
ghost use Rattle.writer.specs.Writing.{section4};

use crate::source::{SECTIONS, kind_of, list_of, numbers_in, row_of, rows_in, table_bytes};
use layout::Way;
use table::{Lists, Refusal};

// Whether a list is a whole number of records; the header's is one.
#[tactic(auto, unfolding(table::specs::Write::whole_list))]
fn is_whole(lists: Lists<'_>, section: usize) -> bool
    requires { section < 6 }
    ensures { result ≡ whole_list (lists_of lists.entry) section }
{
    list_of(lists, section).len() == rows_in(lists, section) * numbers_in(section)
}

// Whether each list is.
fn all_whole(lists: Lists<'_>) -> bool
    ensures { result ≡ whole (lists_of lists.entry) }
{
    for section in 0..SECTIONS {
        if !is_whole(lists, section) {
            return false;
        }
    }
    true
}

// 2: a list that is no whole number of records, a version, a count or a delay out of range.
fn header_tested(lists: Lists<'_>) -> Result<(), Refusal>
    ensures { given result ≡ write2 (lists_of lists.entry) }
{
    if !all_whole(lists) {
        return Err(Refusal::Header { test: 0 });
    }
    match layout::fault_of(Way::Writing, 0, &row_of(lists, 0, 0)) {
        None => Ok(()),
        Some(test) => Err(Refusal::Header { test }),
    }
}

// The first bad record of a section.
fn section_tested(lists: Lists<'_>, section: usize) -> Result<(), Refusal>
    requires { (0 < section) × (section < 6) }
    ensures { given result ≡ section4 (lists_of lists.entry) section }
{
    let kind = kind_of(lists, section);
    for i in 0..rows_in(lists, section) {
        if let Some(test) = layout::fault_of(Way::Writing, kind, &row_of(lists, section, i)) {
            return Err(Refusal::Record {
                section: section as u64,
                row: i as u64,
                test,
            });
        }
    }
    Ok(())
}

// 4: the first bad record of the lowest section.
fn records_tested(lists: Lists<'_>) -> Result<(), Refusal>
    ensures { given result ≡ write4 (lists_of lists.entry) }
{
    for section in 1..SECTIONS {
        if let Err(refusal) = section_tested(lists, section) {
            return Err(refusal);
        }
    }
    Ok(())
}

// 2, 4 and 11, in that order; and the bytes that the table takes, where none refuses.
pub fn tested(lists: Lists<'_>, room: usize) -> Result<usize, Refusal>
    ensures answer { said result ≡ write_answer (lists_of lists.entry) room }
    ensures bytes { IfOk result (λ n. (n ≡ table_size (lists_of lists.entry)) × (n ≤ room)) }
{
    if let Err(refusal) = header_tested(lists) {
        return Err(refusal);
    }
    if let Err(refusal) = records_tested(lists) {
        return Err(refusal);
    }
    let bytes = table_bytes(lists);
    if bytes <= room {
        Ok(bytes)
    } else {
        Err(Refusal::NoRoom)
    }
}
