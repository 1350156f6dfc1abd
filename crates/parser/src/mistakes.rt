// The first mistake of a text, by its line and the place of the word.
// One pass over the lines: a line is looked at by itself, and with the lines of its section before it counted.
ghost use Rattle.std.specs.Prelude.{◌≡◌, ltb, option_map};
ghost use Rattle.base.specs.Pick.{pick};
ghost use Rattle.words.specs.Words.{words_of};
ghost use Rattle.words.specs.Places.{part, word_at};
ghost use Rattle.notation.specs.Steps.{fields_of};
ghost use Rattle.parser.specs.Lines.{Stands, line_told};
ghost use Rattle.parser.specs.declared.mistakes.Fault.TheVariants.{NotSaid, Over};
ghost use Rattle.parser.specs.declared.mistakes.Mistake.TheVariants.{InLine};
ghost use Rattle.parser.specs.Mistakes.{line_fault, mistake_at, counted_by, mistake_in};

use crate::lines::{Line, line_of};
use words::Span;

// What is wrong with a line.
#[derive(Clone, Copy, PartialEq, Eq, Debug)]
pub enum Fault {
    // a first word that is no keyword
    Unknown,
    // a field that is not said
    NotSaid,
    // words behind the last field
    Over,
    // a line more than its section may have
    TooMany,
}

// The first mistake of a text.
#[derive(Clone, Copy, PartialEq, Eq, Debug)]
pub enum Mistake {
    // no line says the delays
    NoDelays,
    // a line, by its number from 1: its section and field, and the place of the word, empty where the line ends there
    InLine {
        fault: Fault,
        line: usize,
        section: usize,
        field: usize,
        word: Span,
    },
}

// Where a line stands: its number from 1, and from which place to before which.
#[derive(Clone, Copy)]
struct Stretch {
    number: usize,
    at: usize,
    end: usize,
}

// How many lines each section has so far, and how many it may have.
#[derive(Drop)]
struct Tally {
    counts: [usize; 7],
    most: [usize; 7],
}

fn field_fault(section: usize, field: usize) -> Fault
    ensures { result ≡ pick (ltb field (fields_of section)) NotSaid Over }
{
    if field < notation::fields_in(section) {
        Fault::NotSaid
    } else {
        Fault::Over
    }
}

// A mistake that is said of the next word from the stretch's place on.
fn made(text: &[u8], from: Stretch, fault: Fault, section: usize, field: usize) -> Mistake
    ensures { result ≡ InLine fault from.number section field (word_at text.now from.at from.end) }
{
    Mistake::InLine {
        fault,
        line: from.number,
        section,
        field,
        word: words::word_at(text, from.at, from.end),
    }
}

// What is wrong with a line; a good one is counted, where its section may have one more.
#[tactic(auto, unfolding(crate::specs::Lines::line_told, crate::specs::Mistakes::line_fault, crate::specs::Mistakes::counted_by))]
fn mistake_at(text: &[u8], here: Stretch, line: &Line, tally: &mut Tally) -> Option<Mistake>
    requires { Stands text.now here.at here.end line.now }
    ensures found { result ≡ option_map (mistake_at text.now here.at here.end here.number)
        (line_fault tally.old.most tally.old.counts
        (words_of (part text.now here.at here.end)) (line_told text.now here.end line.now)) }
    ensures counted { tally.new.counts ≡ counted_by tally.old.most tally.old.counts line.now }
    ensures most { tally.new.most ≡ tally.old.most }
{
    match *line {
        Line::Silent => None,
        Line::Unknown => Some(made(text, here, Fault::Unknown, 0, 0)),
        Line::Good { section, .. } => {
            if tally.counts[section] < tally.most[section] {
                tally.counts[section] += 1;
                return None;
            }
            Some(made(text, here, Fault::TooMany, section, 0))
        }
        Line::Wrong {
            section,
            count,
            place,
        } => {
            let behind = Stretch { at: place, ..here };
            Some(made(text, behind, field_fault(section, count), section, count))
        }
    }
}

// The first mistake of a text, where each section may have so many lines, and the version's line is the last.
pub fn mistake_of(text: &[u8], version: u64, most: [usize; 7]) -> Option<Mistake>
    ensures { result ≡ mistake_in text.now version most }
{
    let mut tally = Tally {
        counts: [0; 7],
        most,
    };
    let mut number = 0;
    let mut at = 0;
    while at <= text.len() {
        let end = words::line_end(text, at);
        let line = line_of(text, at, end, version);
        number += 1;
        let mistake = mistake_at(text, Stretch { number, at, end }, &line, &mut tally);
        if mistake.is_some() {
            return mistake;
        }
        at = end + 1;
    }
    if tally.counts[0] == 0 {
        return Some(Mistake::NoDelays);
    }
    None
}
