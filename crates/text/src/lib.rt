// A text that is lent and the place in it where the next byte goes, as one value: it takes bytes, numbers in decimal, lines of numbers and
// the line of a refusal, one behind the other. Every method answers for all input: what does not fit is left out.
#![tactic(auto)]

ghost use Rattle.std.specs.Prelude.{[], ◌∷◌, ◌≡◌, take};
ghost use Rattle.text.specs.Text.{decimal, spaced_from, spaced, line};
ghost use Rattle.text.specs.Refusal.{refusal};
ghost use Rattle.text.specs.Gains.{Gains};

use table::Answer;

// The longest line of a refusal: eight bytes of the word, and three numbers of at most twenty digits with a space or the line's end behind.
pub const REFUSAL: usize = 71;

#[derive(Drop)]
pub struct Text<'a> {
    pub bytes: &'a mut [u8],
    pub at: usize,
}

impl<'a> Text<'a> {
    // A text that begins: the next byte goes to its front.
    pub fn new(bytes: &'a mut [u8]) -> Text<'a>
        ensures start { result.at ≡ 0 }
        ensures lent { result.bytes ≡ bytes.entry }
    {
        Text { bytes, at: 0 }
    }

    #[tactic(auto, using(crate::proofs::PutLaws::puts_past, crate::proofs::PutLaws::puts_one))]
    pub fn put_byte(&mut self, byte: u8)
        ensures { Gains self.old (byte ∷ []) self.new }
    {
        if self.at < self.bytes.len() {
            self.bytes[self.at] = byte;
            self.at += 1;
        }
    }

    pub fn put_bytes(&mut self, bytes: &[u8])
        ensures { Gains self.old bytes.now self.new }
    {
        for byte in bytes {
            self.put_byte(*byte);
        }
    }

    #[tactic(auto, using(crate::proofs::DecimalLaws::decimal_spelled))]
    pub fn put_number(&mut self, n: u64)
        ensures { Gains self.old (decimal n) self.new }
    {
        let mut digits = [0u8; 20];
        let count = io::decimal(n, &mut digits);
        self.put_bytes(&digits[..count]);
    }

    // A number with a space before it.
    pub fn put_spaced_number(&mut self, n: u64)
        ensures { Gains self.old (32 ∷ decimal n) self.new }
    {
        self.put_byte(b' ');
        self.put_number(n);
    }

    fn put_rest(&mut self, numbers: &[u64])
        ensures { Gains self.old (spaced_from numbers.now) self.new }
    {
        for n in numbers {
            self.put_spaced_number(*n);
        }
    }

    #[tactic(auto, using(crate::proofs::GainLaws::gains_no_number))]
    fn put_spaced(&mut self, numbers: &[u64])
        ensures { Gains self.old (spaced numbers.now) self.new }
    {
        if let Some((first, rest)) = numbers.split_first() {
            self.put_number(*first);
            self.put_rest(rest);
        }
    }

    pub fn put_line(&mut self, numbers: &[u64])
        ensures { Gains self.old (line numbers.now) self.new }
    {
        self.put_spaced(numbers);
        self.put_byte(b'\n');
    }

    // The line of a refusal: its numbers are those of the answer.
    pub fn put_refusal(&mut self, answer: Answer)
        ensures { Gains self.old (refusal answer) self.new }
    {
        self.put_bytes(b"refused ");
        self.put_line(&[answer.number, answer.section, answer.row]);
    }

    // The bytes from the text's start to its place.
    pub fn written(self) -> &'a [u8]
        ensures { result.now ≡ take self.entry.at self.entry.bytes.now }
    {
        let Text { bytes, at } = self;
        let end = at.min(bytes.len());
        &bytes[..end]
    }
}

// The line of a refusal, in the room that is lent for it.
pub fn refusal_line(answer: Answer, room: &mut [u8; REFUSAL]) -> &[u8]
    ensures { result.now ≡ refusal answer }
{
    let mut text = Text::new(room);
    text.put_refusal(answer);
    text.written()
}
