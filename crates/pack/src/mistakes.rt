// The sentence of a mistake of a text: its line and the field or the word, or that there are no delays.
// Each fault of a line has its own words between the line and the word that is shown.
use crate::names::{put_start, put_word};
use layout::{Kind, Name};
use parser::{Fault, Mistake};
use text::Text;

// What the words of a field have to be.
fn put_form(text: &mut Text<'_>, name: Name) {
    match name {
        Name::Kind => text.put_bytes(b" is queuing or sampling, not "),
        Name::Parent => text.put_bytes(b" is none, or after and a row of the hops, not "),
        _ => text.put_bytes(b" is not a number: "),
    }
}

// The line ends where the field should be, or has this word there.
fn put_not_said(text: &mut Text<'_>, name: Name, word: &[u8]) {
    notation::put_name(text, name);
    if word.is_empty() {
        text.put_bytes(b" is missing");
    } else {
        put_form(text, name);
        put_word(text, word);
    }
}

fn put_over(text: &mut Text<'_>, section: usize, word: &[u8]) {
    text.put_bytes(b"more words than a line of ");
    notation::put_keyword(text, section);
    text.put_bytes(b" has: ");
    put_word(text, word);
}

// The most lines of a section, by the header's field that counts them.
fn put_most(text: &mut Text<'_>, section: usize) {
    if let Kind::Number(_, most) = layout::shape_at(0, section).kind {
        text.put_number(most);
    }
}

// A line more than its section may have: the delays and the version have one.
fn put_too_many(text: &mut Text<'_>, section: usize) {
    match section {
        0 => text.put_bytes(b"a second line of delays"),
        6 => text.put_bytes(b"a second line of version"),
        _ => {
            text.put_bytes(b"more than ");
            put_most(text, section);
            text.put_byte(b' ');
            notation::put_keyword(text, section);
            text.put_bytes(b" lines");
        }
    }
}

fn put_unknown(text: &mut Text<'_>, word: &[u8]) {
    text.put_bytes(b"a line begins with delays, system, vl, stream, port, hop or version, not ");
    put_word(text, word);
}

pub(crate) fn put_mistake(text: &mut Text<'_>, given: &[u8], version: u64, mistake: Mistake) {
    let Mistake::InLine {
        fault,
        line,
        section,
        field,
        word,
    } = mistake
    else {
        return text.put_bytes(b"pack: there is no line of delays\n");
    };
    let word = words::bytes_of(given, word);
    put_start(text, line);
    match fault {
        Fault::Unknown => put_unknown(text, word),
        Fault::NotSaid => {
            let name = notation::field_at(version, section, field).name;
            put_not_said(text, name, word);
        }
        Fault::Over => put_over(text, section, word),
        Fault::TooMany => put_too_many(text, section),
    }
    text.put_byte(b'\n');
}
