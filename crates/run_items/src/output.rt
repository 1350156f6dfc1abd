// The text of an item: numbers, lists and bytes put one behind the other and written out in few calls.
// A write that fails is not told: what is missing shows where the text is compared.
use table::{Answer, Refusal};
use text::Text;

// The text is gathered in so many bytes.
pub const TEXT: usize = 4_096;

// From here on it is written out first: a line of six numbers has at most 126 bytes, and the last line at most 26.
const FULL: usize = 3_900;

// The text, as far as it is not written out.
#[derive(Drop)]
pub struct Output<'a> {
    text: Text<'a>,
}

impl<'a> Output<'a> {
    pub fn new(room: &'a mut [u8; TEXT]) -> Output<'a> {
        Output {
            text: Text::new(room),
        }
    }

    fn flush(&mut self) {
        let used = self.text.at;
        let _ = console::write_first(self.text.bytes, used);
        self.text.at = 0;
    }

    fn make_room(&mut self) {
        if FULL <= self.text.at {
            self.flush();
        }
    }

    // An item's first line: its kind and numbers.
    pub fn put_first(&mut self, kind: u8, numbers: &[u64]) {
        self.text.put_bytes(&[kind, b' ']);
        self.text.put_line(numbers);
    }

    pub fn put_answer(&mut self, kind: u8, refusal: Option<Refusal>) {
        let answer = answer_of(refusal);
        self.put_first(kind, &[answer.number, answer.section, answer.row]);
    }

    // A row of a result.
    pub fn put_row(&mut self, row: &[u64]) {
        self.make_room();
        self.text.put_line(row);
    }

    // The line of a list that need not fit the text: it is written out between the numbers.
    pub fn put_list(&mut self, list: &[u64]) {
        for (i, n) in list.iter().enumerate() {
            self.make_room();
            if 0 < i {
                self.text.put_bytes(b" ");
            }
            self.text.put_number(*n);
        }
        self.text.put_bytes(b"\n");
    }

    // The line of bytes in lowercase hex.
    pub fn put_hex(&mut self, bytes: &[u8]) {
        for byte in bytes {
            self.make_room();
            let mut digits = [0; 16];
            io::hex(u64::from(*byte), 2, &mut digits);
            self.text.put_bytes(&digits[..2]);
        }
        self.text.put_bytes(b"\n");
    }

    // An item's last line, how many lent places behind what was written are not zero; and all its text goes out.
    pub fn end(&mut self, rest: usize) {
        self.text.put_bytes(b"rest ");
        self.text.put_line(&[rest as u64]);
        self.flush();
    }
}

pub fn answer_of(refusal: Option<Refusal>) -> Answer {
    refusal.map_or(Answer::ACCEPTED, |refusal| refusal.answer())
}

// How many values from place n on are not zero.
pub fn rest<T: Copy + Into<u64>>(list: &[T], n: usize) -> usize {
    list.iter()
        .skip(n)
        .filter(|value| (**value).into() != 0)
        .count()
}
