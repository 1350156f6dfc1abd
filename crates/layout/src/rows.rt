// A record as a row of numbers, one for each field: read from the table, written to it, converted, tested.
// One loop over the fields each, by the record's kind.
ghost use Rattle.std.specs.Prelude.{◌≡◌, get_or};
ghost use Rattle.base.specs.Tests.{number_or0};
ghost use Rattle.layout.specs.Layout.{layout, blank, widths};
ghost use Rattle.layout.specs.Fields.{convert};
ghost use Rattle.layout.specs.Rows.{row_room, row_at, converted, row_fault};
ghost use Rattle.layout.specs.Promises.{with_row_at, wide};

use crate::sizes::LONGEST;
use crate::{Way, fields, kinds, orders, shapes};
use bits::Cursor;

// Reads the stored numbers of a record that begins at bit `at` to a lent row; zeros where the table has no such record.
#[tactic(auto, using(crate::proofs::LayoutLaws::few_fields, crate::proofs::LayoutLaws::narrow))]
#[inline(never)]
pub fn read_row(table: &[u8], at: usize, kind: usize, row: &mut [u64; LONGEST])
    ensures { row.new ≡ wide (row_at table.now at kind) }
{
    *row = [0; LONGEST];
    if has_row(table.len(), at, kind) {
        let mut cursor = Cursor::new(at);
        for k in 0..kinds::fields_in(kind) {
            let field = cursor.read(table, shapes::shape_at(kind, k).width);
            row[k] = field.value;
            cursor = field.next;
        }
    }
}

// Writes the stored numbers of a record that begins at bit `at`; nothing where there is no such record.
#[tactic(auto, using(crate::proofs::LayoutLaws::few_fields, crate::proofs::LayoutLaws::narrow))]
pub fn put_row(table: &mut [u8], at: usize, kind: usize, row: [u64; LONGEST])
    ensures { table.new ≡ with_row_at table.old at kind row }
{
    if has_row(table.len(), at, kind) {
        let mut cursor = Cursor::new(at);
        for k in 0..kinds::fields_in(kind) {
            cursor = cursor.put(table, shapes::width_at(kind, k), row[k]);
        }
    }
}

// Whether a table of n bytes has a record of this kind from bit `at` on.
#[tactic(auto, using(std::proofs::lemmas::Bool::Decides::nat_tests, crate::proofs::LayoutLaws::size_most, crate::proofs::LayoutLaws::whole_bytes), unfolding(crate::specs::Rows::row_room))]
fn has_row(n: usize, at: usize, kind: usize) -> bool
    ensures { result ≡ row_room n at (widths kind) }
{
    let w = 8 * kinds::bytes_in(kind);
    n <= 4_294_967_296 && at <= 8 * n && at + w <= 8 * n
}

// The row's numbers converted, 0 where one is out of range.
#[tactic(auto, using(crate::proofs::LayoutLaws::few_fields, crate::proofs::LayoutLaws::narrow))]
pub fn converted_row(way: Way, kind: usize, row: &[u64; LONGEST]) -> [u64; LONGEST]
    ensures { result ≡ wide (converted way (layout kind) row.now) }
{
    let mut out = [0; LONGEST];
    for k in 0..kinds::fields_in(kind) {
        out[k] = converted_number(way, kind, k, row[k]);
    }
    out
}

// The number of field k converted, 0 where it is out of range.
// It calls no method of std: a program is wired from the functions of this repository alone (order/proofs/There).
#[tactic(auto, using(crate::proofs::LayoutLaws::narrow), unfolding(base::specs::Tests::number_or0))]
#[inline(always)]
pub fn converted_number(way: Way, kind: usize, k: usize, n: u64) -> u64
    ensures { result ≡ number_or0 (convert way (get_or (layout kind) k blank) n) }
{
    match fields::convert_field(way, shapes::shape_at(kind, k), n) {
        Some(value) => value,
        None => 0,
    }
}

// The first test of a row that fails: a field's own range by the field's place, then the pairs of fields that are not in order.
#[tactic(auto, using(crate::proofs::LayoutLaws::few_fields, crate::proofs::LayoutLaws::narrow))]
#[inline(never)]
pub fn fault_of(way: Way, kind: usize, row: &[u64; LONGEST]) -> Option<u64>
    ensures { result ≡ row_fault way kind row.now }
{
    for k in 0..kinds::fields_in(kind) {
        let Some(_) = fields::convert_field(way, shapes::shape_at(kind, k), row[k]) else {
            return Some(k as u64);
        };
    }
    orders::order_fault(kind, row)
}
