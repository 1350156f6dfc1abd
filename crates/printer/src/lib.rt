// Puts a record of a table in a text as a line of words: the delays, the version, and the records of every section.
// Every routine answers for all input: what does not fit is left out.
#![tactic(auto)]

ghost use Rattle.std.specs.Prelude.{[], ◌∷◌, ◌++◌, eqb, get_or};
ghost use Rattle.base.specs.Pick.{pick};
ghost use Rattle.layout.specs.declared.Name.TheVariants as name;
ghost use Rattle.text.specs.Text.{decimal};
ghost use Rattle.text.specs.Gains.{Gains};
ghost use Rattle.words.specs.Printed.{line_from, line_of};
ghost use Rattle.notation.specs.Notation.{line_fields, choices, parent_words, field_words};
ghost use Rattle.notation.specs.Printed.{fields_words, line_words};

use layout::{Name, Shape};
use text::Text;

// The line of a record: its keyword, its numbers in words, and the line feed.
pub fn put_record(text: &mut Text<'_>, version: u64, section: usize, numbers: &[u64])
    ensures { Gains text.old (line_of (line_words version section numbers.now) ++ (10 ∷ [])) text.new }
{
    notation::put_keyword(text, section);
    put_fields(text, version, section, numbers);
    text.put_byte(b'\n');
}

// The words of the numbers, a space before each.
fn put_fields(text: &mut Text<'_>, version: u64, section: usize, numbers: &[u64])
    ensures { Gains text.old (line_from (fields_words (line_fields version section) numbers.now)) text.new }
{
    let count = notation::fields_in(section).min(numbers.len());
    for k in 0..count {
        let shape = notation::field_at(version, section, k);
        put_field(text, shape, numbers[k]);
    }
}

// The words of a number, each with a space before it; a field of 0 bits has none.
fn put_field(text: &mut Text<'_>, shape: Shape, n: u64)
    ensures { Gains text.old (line_from (pick (eqb shape.width 0) [] (field_words shape.name n))) text.new }
{
    if shape.width != 0 {
        put_words(text, shape.name, n);
    }
}

fn put_words(text: &mut Text<'_>, name: Name, n: u64)
    ensures { Gains text.old (line_from (field_words name n)) text.new }
{
    match name {
        Name::Kind => put_kind(text, n),
        Name::Parent => put_parent(text, n),
        _ => text.put_spaced_number(n),
    }
}

#[tactic(auto, unfolding(notation::specs::Notation::choices, layout::specs::Names::number_of))]
fn put_kind(text: &mut Text<'_>, n: u64)
    ensures { Gains text.old (32 ∷ get_or (choices name.Kind) n (decimal n)) text.new }
{
    match n {
        0 => text.put_bytes(b" queuing"),
        1 => text.put_bytes(b" sampling"),
        _ => text.put_spaced_number(n),
    }
}

// A parent is stored as its row + 1.
fn put_parent(text: &mut Text<'_>, n: u64)
    ensures { Gains text.old (line_from (parent_words n)) text.new }
{
    match n {
        0 => text.put_bytes(b" none"),
        _ => {
            text.put_bytes(b" after");
            text.put_spaced_number(n - 1);
        }
    }
}
