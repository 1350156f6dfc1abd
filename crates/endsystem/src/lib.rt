// What a supplier of end systems links: the frame rule and the station, as functions that C calls. There is no table in it.
// Numbers and a flat slice come in; a struct of number, section, row and values goes out. As in `frame` and `station`, every routine answers for all input.
#![tactic(auto)]

ghost use Rattle.std.specs.Prelude.{◌≡◌};
ghost use Rattle.base.specs.Said.{ruled};
ghost use Rattle.frame.specs.Tick.{sends_in_time};
ghost use Rattle.frame.specs.Frame.{line_of};
ghost use Rattle.frame.specs.Offered.{largest_line_of, packets_of};
ghost use Rattle.frame.specs.Gap.{gap_of, code_of, ms_of};
ghost use Rattle.station.specs.Answer.{said};
ghost use Rattle.endsystem.specs.Answers.{rule_said, station_said};
ghost use Rattle.endsystem.specs.Speeds.{per_byte_at};
ghost use Rattle.endsystem.specs.Flat.{flat_says};

use frame::{Speed, Tick};
use station::{Busy, Refusal};

// ---- the frame rule

// The answer of a rule that gives one number.
#[repr(C)]
#[derive(Clone, Copy)]
pub struct RuleAnswer {
    pub number: u64,
    pub section: u64,
    pub row: u64,
    pub value: u64,
}

#[tactic(auto, unfolding(crate::specs::Answers::rule_said, base::specs::Said::ruled))]
fn told(reply: Option<u64>) -> RuleAnswer
    ensures { rule_said result ≡ ruled reply }
{
    match reply {
        Some(value) => RuleAnswer {
            number: 0,
            section: 0,
            row: 0,
            value,
        },
        None => RuleAnswer {
            number: 4,
            section: 0,
            row: 0,
            value: 0,
        },
    }
}

// The bytes that a packet of this payload occupies on the line.
#[unsafe(no_mangle)]
pub extern "C" fn avulgjesh_line_of(payload: u64) -> RuleAnswer
    ensures { rule_said result ≡ ruled (line_of payload) }
{
    told(frame::line_of(payload))
}

// The most bytes that a frame of a VL of largest frame lmax occupies on the line.
#[unsafe(no_mangle)]
pub extern "C" fn avulgjesh_largest_line(lmax: u64) -> RuleAnswer
    ensures { rule_said result ≡ ruled (largest_line_of lmax) }
{
    told(frame::largest_line(lmax))
}

// The packets that a message of m bytes becomes on a VL of largest frame lmax.
#[unsafe(no_mangle)]
pub extern "C" fn avulgjesh_packets_of(m: u64, lmax: u64) -> RuleAnswer
    ensures { rule_said result ≡ ruled (packets_of m lmax) }
{
    told(frame::packets_of(m, lmax))
}

// The gap in ticks that a code stands for.
#[unsafe(no_mangle)]
pub extern "C" fn avulgjesh_gap_of(code: u64) -> RuleAnswer
    ensures { rule_said result ≡ ruled (gap_of code) }
{
    told(frame::gap_of(code))
}

// The code of a gap in milliseconds.
#[unsafe(no_mangle)]
pub extern "C" fn avulgjesh_code_of(ms: u64) -> RuleAnswer
    ensures { rule_said result ≡ ruled (code_of ms) }
{
    told(frame::code_of(ms))
}

// The gap in milliseconds that a code stands for.
#[unsafe(no_mangle)]
pub extern "C" fn avulgjesh_ms_of(code: u64) -> RuleAnswer
    ensures { rule_said result ≡ ruled (ms_of code) }
{
    told(frame::ms_of(code))
}

// The ticks that a byte takes at a speed in Mbit/s.
#[tactic(auto, unfolding(crate::specs::Speeds::per_byte_at))]
#[unsafe(no_mangle)]
pub extern "C" fn avulgjesh_per_byte(speed: u64) -> RuleAnswer
    ensures { rule_said result ≡ ruled (per_byte_at speed) }
{
    told(match speed {
        100 => Some(Tick::per_byte(Speed::Mbit100)),
        10 => Some(Tick::per_byte(Speed::Mbit10)),
        _ => None,
    })
}

// Whether an end system whose frames take this many ticks in all keeps to equation 1.
#[unsafe(no_mangle)]
pub extern "C" fn avulgjesh_sends_in_time(sum: u64) -> bool
    ensures { result ≡ sends_in_time sum }
{
    Tick::sends_in_time(sum)
}

// ---- the station

// The answer of the station.
#[repr(C)]
#[derive(Clone, Copy)]
pub struct StationAnswer {
    pub number: u64,
    pub section: u64,
    pub row: u64,
    pub length: u64,
    pub figure: u64,
}

#[tactic(auto, unfolding(crate::specs::Answers::station_said, station::specs::Answer::said))]
fn station_told(answer: Result<Busy, Refusal>) -> StationAnswer
    ensures { station_said result ≡ said answer }
{
    match answer {
        Ok(busy) => StationAnswer {
            number: 0,
            section: 0,
            row: 0,
            length: busy.length,
            figure: busy.figure,
        },
        Err(refusal) => StationAnswer {
            number: match refusal {
                Refusal::OutOfRange => 4,
                Refusal::Endless => 10,
            },
            section: 0,
            row: 0,
            length: 0,
            figure: 0,
        },
    }
}

// The station of a flat slice of flows: three numbers a flow, its period, its jitter and its cost.
#[tactic(auto, using(crate::proofs::FlatLaws::uneven, crate::proofs::FlatLaws::even), unfolding(station::specs::Answer::said))]
#[unsafe(no_mangle)]
pub extern "C" fn avulgjesh_station(flows: &[u64]) -> StationAnswer
    ensures { station_said result ≡ flat_says flows.now }
{
    if flows.len() % 3 != 0 {
        station_told(Err(Refusal::OutOfRange))
    } else {
        station_told(station::station_in(flows, flows.len() / 3))
    }
}
