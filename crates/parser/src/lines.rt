// What a line says: its section, and the numbers of its fields or the first that it does not say.
// The words are taken one after the other from the front.
ghost use Rattle.std.specs.Prelude.{◌≡◌, ◌≤◌};
ghost use Rattle.words.specs.Words.{words_of};
ghost use Rattle.words.specs.Places.{part};
ghost use Rattle.notation.specs.Notation.{line_fields};
ghost use Rattle.notation.specs.Meant.{fields_from, line_said, of};
ghost use Rattle.parser.specs.Lines.{numbers_in, Tells};

use layout::sizes::LONGEST;

// A line: of which kind it is, and what it says.
#[derive(Clone, Copy)]
pub(crate) enum Line {
    // no words
    Silent,
    // a first word that is no keyword
    Unknown,
    // the numbers of all fields that a line of its section has
    Good {
        section: usize,
        numbers: [u64; LONGEST],
    },
    // how many of its fields it says, and the place behind them
    Wrong {
        section: usize,
        count: usize,
        place: usize,
    },
}

impl Line {
    // Its numbers, where it is a good one of this section.
    pub(crate) fn numbers_of(&self, section: usize) -> &[u64]
        ensures { result.now ≡ numbers_in section self.now }
    {
        match self {
            Line::Good {
                section: own,
                numbers,
            } => {
                if *own == section {
                    &numbers[..notation::fields_in(section)]
                } else {
                    &[]
                }
            }
            _ => &[],
        }
    }
}

// What the words from a place on say of the fields of a line.
fn fields_at(text: &[u8], at: usize, end: usize, version: u64, section: usize) -> Line
    requires { section ≤ 6 }
    ensures { Tells text.now at end
        (of section (fields_from (line_fields version section) (words_of (part text.now at end)))) result }
{
    let count = notation::fields_in(section);
    let mut numbers = [0u64; LONGEST];
    let mut place = at;
    for k in 0..count {
        let shape = notation::field_at(version, section, k);
        let Some(said) = fields::shape_taken(text, place, end, shape) else {
            return Line::Wrong {
                section,
                count: k,
                place,
            };
        };
        numbers[k] = said.number;
        place = said.next;
    }
    let over = words::word_at(text, place, end);
    if over.from < over.to {
        return Line::Wrong {
            section,
            count,
            place,
        };
    }
    Line::Good { section, numbers }
}

// What the line from one place to before another says.
pub(crate) fn line_of(text: &[u8], at: usize, end: usize, version: u64) -> Line
    ensures { Tells text.now at end (line_said version (words_of (part text.now at end))) result }
{
    let word = words::word_at(text, at, end);
    if word.to <= word.from {
        return Line::Silent;
    }
    match fields::keyword_of(text, word) {
        Some(section) => fields_at(text, word.to, end, version, section as usize),
        None => Line::Unknown,
    }
}
