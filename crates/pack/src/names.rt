// How the sentences begin, and how they show a word of the text.
// What does not fit the lent text is left out.
use text::Text;

// The most bytes of a word that are shown.
const SHOWN: usize = 40;

pub(crate) fn put_start(text: &mut Text<'_>, number: usize) {
    text.put_bytes(b"pack: line ");
    text.put_number(number as u64);
    text.put_bytes(b": ");
}

// A byte as it is shown: one that would move a terminal's cursor is not.
fn shown(byte: u8) -> u8 {
    match byte {
        0..=31 | 127 => b'?',
        _ => byte,
    }
}

// A word in quotes: its first bytes, where it is long.
pub(crate) fn put_word(text: &mut Text<'_>, word: &[u8]) {
    text.put_byte(b'"');
    for byte in word.iter().take(SHOWN) {
        text.put_byte(shown(*byte));
    }
    text.put_byte(b'"');
}
