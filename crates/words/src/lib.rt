// Finds the lines and words of a text by their places, and tells what a word is: this word, or that number.
// Every public routine answers for all input: a place past the text's end has nothing behind it.
#![tactic(auto)]

ghost use Rattle.std.specs.Prelude.{ℕ, Bool, ◌≡◌, ◌+◌, ◌-◌, ◌*◌, ◌^◌, min};
ghost use Rattle.words.specs.Words.{blank, same, numeral};
ghost use Rattle.words.specs.Places.{part, first_place, line_end, ends, word_at};

// The bytes of a text from one place to before another.
#[derive(Clone, Copy, PartialEq, Eq, Debug)]
pub struct Span {
    pub from: usize,
    pub to: usize,
}

#[tactic(auto, unfolding(crate::specs::Words::blank))]
fn is_blank(byte: u8) -> bool
    ensures { result ≡ blank byte }
{
    matches!(byte, b' ' | b'\t' | b'\r')
}

#[tactic(auto, unfolding(crate::specs::Places::ends, crate::specs::Words::hash))]
fn is_end(byte: u8) -> bool
    ensures { result ≡ ends byte }
{
    is_blank(byte) || byte == b'#'
}

// The first place from `at` on, before `end` and the text's end, whose byte passes a test.
fn first_place<F: Fn(u8) -> bool>(text: &[u8], at: usize, end: usize, passes: F) -> usize
    ghost test: { ℕ → Bool }
    requires callable { F.IsAlwaysCallable passes }
    requires tests { (byte : ℕ) (passed : Bool) → F.post passes byte passed → passed ≡ test byte }
    ensures { result ≡ first_place test text.now at end }
{
    let behind = end.min(text.len());
    for place in at..behind {
        if passes(text[place]) {
            return place;
        }
    }
    at.max(behind)
}

// Where the line that is read from a place on ends.
#[tactic(auto, unfolding(crate::specs::Places::line_end, crate::specs::Words::feed))]
pub fn line_end(text: &[u8], at: usize) -> usize
    ensures { result ≡ line_end text.now at }
{
    first_place(text, at, text.len(), |byte| byte == b'\n')
}

// The next word of the part of a line from one place to before another; empty where there is none.
#[tactic(auto, unfolding(crate::specs::Places::word_at, crate::specs::Places::begins))]
pub fn word_at(text: &[u8], at: usize, end: usize) -> Span
    ensures { result ≡ word_at text.now at end }
{
    let from = first_place(text, at, end, |byte| !is_blank(byte));
    let to = first_place(text, from, end, is_end);
    Span { from, to }
}

// The bytes of a span: what it has past the text's end is in no part of it.
#[tactic(auto, using(crate::proofs::PlaceLaws::part_held))]
pub fn bytes_of(text: &[u8], span: Span) -> &[u8]
    ensures { result.now ≡ part text.now span.from span.to }
{
    let to = span.to.min(text.len());
    let from = span.from.min(to);
    &text[from..to]
}

// Whether the bytes of a span are this word.
#[tactic(auto, using(crate::proofs::SameLaws::same_is))]
pub fn is_word(text: &[u8], span: Span, word: &[u8]) -> bool
    ensures { result ≡ same (part text.now span.from span.to) word.now }
{
    bytes_of(text, span) == word
}

// A number with one digit more behind it; the greatest that there is where it is above that.
fn with_digit(number: u64, byte: u8) -> u64
    ensures { result ≡ min (number * 10 + (byte - 48)) (2 ^ 64 - 1) }
{
    let digit = u64::from(byte.saturating_sub(b'0'));
    number.saturating_mul(10).saturating_add(digit)
}

fn numeral_of(word: &[u8]) -> Option<u64>
    ensures { result ≡ numeral word.now }
{
    if word.is_empty() {
        return None;
    }
    let mut number = 0;
    for &byte in word {
        if !byte.is_ascii_digit() {
            return None;
        }
        number = with_digit(number, byte);
    }
    Some(number)
}

// The number that the bytes of a span spell.
pub fn number_at(text: &[u8], span: Span) -> Option<u64>
    ensures { result ≡ numeral (part text.now span.from span.to) }
{
    numeral_of(bytes_of(text, span))
}
