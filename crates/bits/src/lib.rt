// A bit cursor by value: fields of up to 32 bits are read from bytes and written to bytes, most significant bit first.
// Every routine answers for all input: where the list has no such field, 0 is read, nothing is written, and the place stays.
#![tactic(auto)]

ghost use Rattle.std.specs.Prelude.{◌≡◌, ◌+◌, ◌-◌, ◌*◌, ◌/◌, ◌%◌, ◌^◌, ◌≤◌, ◌<◌, length};
ghost use Rattle.bits.specs.Bits.{with_digit, put_bit, field_at, put_at};
ghost use Rattle.bits.specs.Place.{Room, room, next_place, field_of, put_of};

// A place in a list of bytes, counted in bits.
#[derive(Clone, Copy, PartialEq, Eq, Debug)]
pub struct Cursor {
    pub at: usize,
}

// A field, and the place where the next begins.
#[derive(Clone, Copy, PartialEq, Eq, Debug)]
pub struct Field {
    pub value: u64,
    pub next: Cursor,
}

impl Cursor {
    pub fn new(at: usize) -> Self
        ensures { result.at ≡ at }
    {
        Cursor { at }
    }

    // The field of w bits that begins here.
    pub fn read(self, s: &[u8], w: usize) -> Field
        ensures { result ≡ field_of s.now self.at w }
    {
        if has_room(s.len(), self.at, w) {
            self.take(s, w)
        } else {
            Field {
                value: 0,
                next: self,
            }
        }
    }

    // Writes v as the field of w bits that begins here.
    pub fn put(self, s: &mut [u8], w: usize, v: u64) -> Cursor
        ensures { (result ≡ next_place s.old self.at w) × (s.new ≡ put_of s.old self.at w v) }
    {
        if has_room(s.len(), self.at, w) {
            self.write(s, w, v)
        } else {
            self
        }
    }

    // Reads where there is room: the bytes that the field touches, without the bits that stand in them before and behind it.
    fn take(self, s: &[u8], w: usize) -> Field
        requires { Room s.now self.at w }
        ensures { (result.value ≡ field_at s.now self.at w) × (result.next.at ≡ self.at + w) }
    {
        let end = self.at + w;
        let to = (end + 7) / 8;
        let v = gather(s, self.at / 8, to);
        let behind = 7 - (end + 7) % 8;
        Field {
            value: v / weight(behind) % weight(w),
            next: Cursor { at: end },
        }
    }

    // Writes where there is room, one bit a turn.
    fn write(self, s: &mut [u8], w: usize, v: u64) -> Cursor
        requires { Room s.old self.at w }
        ensures { (result.at ≡ self.at + w) × (s.new ≡ put_at s.old self.at w v) }
    {
        for i in 0..w {
            let p = w - 1 - i;
            put_bit(s, self.at + i, (v >> p) % 2);
        }
        Cursor { at: self.at + w }
    }
}

// Whether a list of n bytes has a field of w bits from bit at on.
#[tactic(auto, using(std::proofs::lemmas::Bool::Decides::nat_tests), unfolding(crate::specs::Place::room))]
fn has_room(n: usize, at: usize, w: usize) -> bool
    ensures { result ≡ room n at w }
{
    w <= 32 && n <= 4_294_967_296 && at <= 8 * n && at + w <= 8 * n
}

// What a field of 32 bits touches.
const MOST_BYTES: usize = 5;

// The bytes from one to before another as one number. The loop has a number of turns that the compiler knows, so that it becomes a few lines.
fn gather(s: &[u8], from: usize, to: usize) -> u64
    requires { (from ≤ to) × (to ≤ length s.now) × (to ≤ from + 5) }
    ensures { result ≡ field_at s.now (8 * from) (8 * (to - from)) }
{
    let mut v: u64 = 0;
    for i in 0..MOST_BYTES {
        if to <= from + i {
            return v;
        }
        v = v * 256 + s[from + i] as u64;
    }
    v
}

#[tactic(auto, unfolding(crate::specs::Bits::put_bit))]
fn put_bit(s: &mut [u8], i: usize, b: u64)
    requires { (i < 8 * length s.old) × (b < 2) }
    ensures { s.new ≡ put_bit s.old i b }
{
    let k = i / 8;
    s[k] = with_digit(s[k], 7 - i % 8, b);
}

fn with_digit(x: u8, p: usize, b: u64) -> u8
    requires { (p < 8) × (b < 2) }
    ensures { result ≡ with_digit x p b }
{
    let n = x as u64;
    let m = weight(p);
    ((n / m / 2 * 2 + b) * m + n % m) as u8
}

fn weight(p: usize) -> u64
    requires { p < 64 }
    ensures { result ≡ 2 ^ p }
{
    1u64 << p
}
