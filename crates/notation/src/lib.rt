// Tables as text: which fields a line has, what they are called and what begins the line. Which there are, and in which order, the layout says.
// Every public routine answers for all input.
#![tactic(auto)]

mod naming;

ghost use Rattle.std.specs.Prelude.{◌≡◌, get_or};
ghost use Rattle.layout.specs.Layout.{blank};
ghost use Rattle.notation.specs.Notation.{line_fields};
ghost use Rattle.notation.specs.Steps.{fields_of};

use layout::Shape;
use layout::places::SEND_LEAST;
use layout::sizes::KINDS;
pub use naming::{keyword, name_of, put_keyword, put_name};

// How the number of a field is written: in decimal, as one of its words, or as a parent.
#[derive(Clone, Copy, PartialEq, Eq, Debug)]
pub enum Form {
    Decimal,
    Choice,
    Parent,
}

// How many fields a line of a section has.
#[tactic(auto, unfolding(crate::specs::Steps::fields_of))]
pub fn fields_in(section: usize) -> usize
    ensures { result ≡ fields_of section }
{
    match section {
        0 => 4,
        6 => 1,
        _ => layout::numbers_in(section),
    }
}

// Field k of a line of a section, blank where it has none.
#[tactic(auto, using(crate::proofs::ShapeLaws::shapes))]
pub fn field_at(version: u64, section: usize, k: usize) -> Shape
    ensures { result ≡ get_or (line_fields version section) k blank }
{
    if fields_in(section) <= k {
        return layout::shape_at(KINDS, k);
    }
    match section {
        0 => layout::shape_at(0, k + SEND_LEAST),
        6 => layout::shape_at(0, k),
        _ => layout::shape_at(layout::kind_of(version, section), k),
    }
}
