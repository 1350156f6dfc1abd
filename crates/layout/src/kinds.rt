// How long a record of each kind is, and which kind of record a version of the table has in a section.
// They follow from the fields; the numbers have names in `sizes`, which arrays need.
ghost use Rattle.std.specs.Prelude.{◌≡◌, length};
ghost use Rattle.layout.specs.Layout.{layout, size, kind_of};
ghost use Rattle.layout.specs.Sizes.{most_bytes};
ghost use Rattle.layout.specs.Rows.{listed};

use crate::sizes;
use sizes::{KINDS, TABLE};

// A kind and a section are plain numbers: every function answers for each of them, and the definitions compute with the section's.

// The fields of a record of each kind; 0 where there is no such kind.
#[tactic(auto, unfolding(crate::specs::Layout::layout_in))]
pub fn fields_in(kind: usize) -> usize
    ensures { result ≡ length (layout kind) }
{
    match kind {
        0 => 11,
        1 => 2,
        2 => 4,
        3 => 8,
        4 => 4,
        5 => 3,
        _ => 0,
    }
}

// The bytes of a record of each kind; 0 where there is no such kind.
#[tactic(auto, unfolding(crate::specs::Layout::layout_in, crate::specs::Layout::size, crate::specs::Layout::widths, base::specs::Tabulate::total))]
pub fn bytes_in(kind: usize) -> usize
    ensures { result ≡ size kind }
{
    match kind {
        0 => sizes::HEADER_BYTES,
        1 => sizes::SYSTEM_BYTES,
        2 => sizes::VL_BYTES,
        3 => sizes::STREAM_BYTES,
        4 => sizes::PORT_BYTES,
        5 => sizes::HOP_BYTES,
        _ => 0,
    }
}

// The numbers that a record of a section has in a list, whatever the version; 0 where there is no such section.
#[tactic(auto, using(crate::proofs::LayoutLaws::listed_is))]
pub fn numbers_in(section: usize) -> usize
    ensures { result ≡ listed section }
{
    match section {
        0 => sizes::HEADER,
        1 => sizes::SYSTEM,
        2 => sizes::VL,
        3 => sizes::STREAM,
        4 => sizes::PORT,
        5 => sizes::HOP,
        _ => 0,
    }
}

// The kind of record that a version of the table has in a section. Any version but a known one is as version 1.
#[tactic(auto, using(crate::proofs::LayoutLaws::kind_there, crate::proofs::LayoutLaws::kind_past))]
pub fn kind_of(version: u64, section: usize) -> usize
    ensures { result ≡ kind_of version section }
{
    if section < KINDS { section } else { KINDS }
}

// The bytes of the longest table.
#[tactic(auto, using(crate::proofs::SizeLaws::longest_table))]
pub fn longest_table() -> usize
    ensures { result ≡ most_bytes 5 }
{
    TABLE
}
