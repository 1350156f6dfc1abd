// What the words of a line say: which section its first word begins, and the number of each field. What they mean, crate `notation` defines.
// A field that is not said is no error here: the line that it stands in says so. Every public routine answers for all input.
#![tactic(auto)]

ghost use Rattle.std.specs.Prelude.{◌≡◌};
ghost use Rattle.layout.specs.declared.Name.TheVariants as name;
ghost use Rattle.words.specs.Words.{words_of};
ghost use Rattle.words.specs.Places.{part};
ghost use Rattle.notation.specs.Notation.{keywords, word_in, choices, form_of};
ghost use Rattle.notation.specs.Meant.{field_from, row_from};
ghost use Rattle.notation.specs.Steps.{parent_from, shape_from};
ghost use Rattle.fields.specs.Fields.{Takes};

use layout::{Name, Shape};
use notation::Form;
use words::Span;

// The words that begin a line: one for each section from 0 on, and the version's.
const KEYWORDS: usize = 7;

// What words say of a field: its number, and the place behind them.
#[derive(Clone, Copy, PartialEq, Eq, Debug)]
pub struct Said {
    pub number: u64,
    pub next: usize,
}

// The place of a word among those that begin a line: its section.
pub fn keyword_of(text: &[u8], span: Span) -> Option<u64>
    ensures { result ≡ word_in keywords (part text.now span.from span.to) }
{
    for section in 0..KEYWORDS {
        if words::is_word(text, span, notation::keyword(section)) {
            return Some(section as u64);
        }
    }
    None
}

#[tactic(auto, using(crate::proofs::NameLaws::left_over), unfolding(notation::specs::Notation::form_of, layout::specs::Names::number_of))]
fn form_of(name: Name) -> Form
    ensures { result ≡ form_of name }
{
    match name {
        Name::Kind => Form::Choice,
        Name::Parent => Form::Parent,
        _ => Form::Decimal,
    }
}

// The place of a word among those that stand for the numbers of a field.
#[tactic(auto, using(crate::proofs::NameLaws::left_over), unfolding(notation::specs::Notation::choices, notation::specs::Notation::word_in, layout::specs::Names::number_of))]
fn choice_of(text: &[u8], span: Span, name: Name) -> Option<u64>
    ensures { result ≡ word_in (choices name) (part text.now span.from span.to) }
{
    match name {
        Name::Kind => kind_of(text, span),
        _ => None,
    }
}

#[tactic(auto, unfolding(notation::specs::Notation::choices, notation::specs::Notation::word_in, layout::specs::Names::number_of))]
fn kind_of(text: &[u8], span: Span) -> Option<u64>
    ensures { result ≡ word_in (choices name.Kind) (part text.now span.from span.to) }
{
    if words::is_word(text, span, b"queuing") {
        Some(0)
    } else if words::is_word(text, span, b"sampling") {
        Some(1)
    } else {
        None
    }
}

// The row behind `after`, as it is stored: + 1.
fn row_at(text: &[u8], at: usize, end: usize) -> Option<Said>
    ensures { Takes text.now at end (row_from (words_of (part text.now at end))) result }
{
    let word = words::word_at(text, at, end);
    if word.to <= word.from {
        return None;
    }
    let row = words::number_at(text, word)?;
    Some(Said {
        number: row.saturating_add(1),
        next: word.to,
    })
}

// A parent, of which this is the first word.
fn parent_at(text: &[u8], word: Span, end: usize) -> Option<Said>
    ensures { Takes text.now word.to end (parent_from (part text.now word.from word.to) (words_of (part text.now word.to end))) result }
{
    if words::is_word(text, word, b"none") {
        Some(Said {
            number: 0,
            next: word.to,
        })
    } else if words::is_word(text, word, b"after") {
        row_at(text, word.to, end)
    } else {
        None
    }
}

// What the words from a place on say of the field of this name.
fn field_at(text: &[u8], at: usize, end: usize, name: Name) -> Option<Said>
    ensures { Takes text.now at end (field_from name (words_of (part text.now at end))) result }
{
    let word = words::word_at(text, at, end);
    if word.to <= word.from {
        return None;
    }
    let number = match form_of(name) {
        Form::Decimal => words::number_at(text, word)?,
        Form::Choice => choice_of(text, word, name)?,
        Form::Parent => return parent_at(text, word, end),
    };
    Some(Said {
        number,
        next: word.to,
    })
}

// What they say of the field of this shape.
#[tactic(auto, using(crate::proofs::FieldLaws::takes_later, crate::proofs::FieldLaws::behind_here), unfolding(notation::specs::Steps::shape_from))]
pub fn shape_taken(text: &[u8], at: usize, end: usize, shape: Shape) -> Option<Said>
    ensures { Takes text.now at end (shape_from shape (words_of (part text.now at end))) result }
{
    if shape.width == 0 {
        return Some(Said {
            number: 0,
            next: at,
        });
    }
    field_at(text, at, end, shape.name)
}
