// The frame rule: the tick, the line size of a packet, the packets of a message, and the gap between the frames of a VL.
// Every routine answers for all input: what 01 gives no number for is refused (4), which is None; `ruled` of crate base has 01's number and values.
#![tactic(auto)]

ghost use Rattle.std.specs.Prelude.{◌≡◌};
ghost use Rattle.frame.specs.Tick.{per_byte, sends_in_time};
ghost use Rattle.frame.specs.Frame.{line_of};
ghost use Rattle.frame.specs.Offered.{largest_line_of, packets_of};
ghost use Rattle.frame.specs.Gap.{gap_of, code_of, ms_of};

#[derive(Clone, Copy)]
pub enum Speed {
    Mbit100,
    Mbit10,
}

// A tick is 80 ns. What belongs to the tick is named with it; a time itself is a plain number of ticks, so a tick has no field.
#[derive(Clone, Copy)]
pub struct Tick;

impl Tick {
    pub const PER_MS: u64 = 12_500;

    pub const PER_BYTE_AT_100: u64 = 1;

    pub const PER_BYTE_AT_10: u64 = 10;

    // 40 µs and 500 µs: equation 1 allows an end system's frames what is between them.
    pub const SEND_BASE: u64 = 500;

    pub const SEND_LIMIT: u64 = 6_250;

    // The ticks that a byte takes.
    pub fn per_byte(speed: Speed) -> u64
        ensures { result ≡ per_byte speed }
    {
        match speed {
            Speed::Mbit100 => Tick::PER_BYTE_AT_100,
            Speed::Mbit10 => Tick::PER_BYTE_AT_10,
        }
    }

    // Whether an end system whose frames take this many ticks in all keeps to equation 1.
    pub fn sends_in_time(sum: u64) -> bool
        ensures { result ≡ sends_in_time sum }
    {
        sum <= Tick::SEND_LIMIT - Tick::SEND_BASE
    }
}

// The numbers of a frame, in bytes: it has no field, as a tick has none.
#[derive(Clone, Copy)]
pub struct Frame;

impl Frame {
    pub const LINE_OVERHEAD: u64 = 20;

    pub const PROTOCOL_OVERHEAD: u64 = 47;

    // Of the protocol overhead, what only the first fragment of a message has.
    pub const UDP_HEADER: u64 = 8;

    // IP counts the places of fragments in units of 8 bytes, so that every fragment but the last has a multiple of them.
    pub const FRAGMENT_UNIT: u64 = 8;

    pub const LEAST: u64 = 64;

    pub const GREATEST: u64 = 1_518;

    pub const LEAST_LINE: u64 = Frame::LINE_OVERHEAD + Frame::LEAST;
}

// The bytes that a packet of this payload occupies on the line.
pub fn line_of(payload: u64) -> Option<u64>
    ensures { result ≡ line_of payload }
{
    match payload {
        1..=17 => Some(84),
        18..=1471 => Some(67 + payload),
        _ => None,
    }
}

// The most bytes that a frame of a VL of largest frame lmax occupies on the line.
pub fn largest_line(lmax: u64) -> Option<u64>
    ensures { result ≡ largest_line_of lmax }
{
    match lmax {
        Frame::LEAST..=Frame::GREATEST => Some(Frame::LINE_OVERHEAD + lmax),
        _ => None,
    }
}

// The packets that a message of m bytes becomes on a VL of largest frame lmax. With its UDP header it goes into full fragments, and
// the last one has room for what is spare beside them.
pub fn packets_of(m: u64, lmax: u64) -> Option<u64>
    ensures { result ≡ packets_of m lmax }
{
    match lmax {
        Frame::LEAST..=Frame::GREATEST => match m {
            1..=8192 => {
                let most = lmax - (Frame::PROTOCOL_OVERHEAD - Frame::UDP_HEADER);
                let spare = most % Frame::FRAGMENT_UNIT;
                let full = most - spare;
                Some((m + (Frame::UDP_HEADER - spare) + (full - 1)) / full)
            }
            _ => None,
        },
        _ => None,
    }
}

const GAPS: [u64; 8] = [
    Tick::PER_MS,
    2 * Tick::PER_MS,
    4 * Tick::PER_MS,
    8 * Tick::PER_MS,
    16 * Tick::PER_MS,
    32 * Tick::PER_MS,
    64 * Tick::PER_MS,
    128 * Tick::PER_MS,
];

// The gap in ticks that a code stands for.
pub fn gap_of(code: u64) -> Option<u64>
    ensures { result ≡ gap_of code }
{
    if code < 8 {
        Some(GAPS[code as usize])
    } else {
        None
    }
}

// The code of a gap in milliseconds: good from 1 to 128 with exactly one bit set.
pub fn code_of(ms: u64) -> Option<u64>
    ensures { result ≡ code_of ms }
{
    match ms {
        1..=128 => {
            if ms.count_ones() == 1 {
                Some(ms.trailing_zeros() as u64)
            } else {
                None
            }
        }
        _ => None,
    }
}

// The gap in milliseconds that a code stands for.
pub fn ms_of(code: u64) -> Option<u64>
    ensures { result ≡ ms_of code }
{
    if code < 8 { Some(1u64 << code) } else { None }
}
