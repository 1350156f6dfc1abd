// The sheet: the network of an accepted table in memory, as the lists of the table and a count of records for each section, and its records as they are read off it, in ticks.
// Any value of it is a sheet: a count counts no more than there is room for.
#![tactic(auto)]

mod accepted;
mod walking;

ghost use Rattle.std.specs.Prelude.{◌≡◌, ◌≤◌, min, length};
ghost use Rattle.frame.specs.Tick.{in_force};
ghost use Rattle.layout.specs.Limits.{limits};
ghost use Rattle.network.specs.Network.{system_at, vl_at, stream_at, port_at, hop_at};
ghost use Rattle.table.specs.Decoded.{ticks_at};
ghost use Rattle.sheet.specs.Sheet.{network_on, delays_in, blank};

pub use accepted::Accepted;
use frame::{Speed, Tick};
use layout::sizes::{HEADER_LIST, HOPS, PORTS, STREAMS, SYSTEMS, VLS};
use layout::{places, sizes};
use network::{EndSystem, Hop, Port, Stream, Vl};
use table::Counts;

// The lists of a table, each with room for the most records, and how many records there are.
#[derive(Clone, Copy)]
pub struct Sheet {
    pub header: [u64; HEADER_LIST],
    pub counts: Counts,
    pub systems: [u64; SYSTEMS],
    pub vls: [u64; VLS],
    pub streams: [u64; STREAMS],
    pub ports: [u64; PORTS],
    pub hops: [u64; HOPS],
}

// The delays of sending and receiving.
#[derive(Clone, Copy)]
pub struct Delays {
    pub send_least: u64,
    pub send_greatest: u64,
    pub receive_least: u64,
    pub receive_greatest: u64,
}

const NO_RECORDS: Counts = Counts {
    systems: 0,
    vls: 0,
    streams: 0,
    ports: 0,
    hops: 0,
};

// A record past the last row.
const NO_SYSTEM: EndSystem = EndSystem { perbyte: 0 };

const NO_VL: Vl = Vl {
    system: 0,
    gap: 0,
    sublinks: 0,
    lmax: 0,
};

const NO_STREAM: Stream = Stream {
    vl: 0,
    sublink: 0,
    sampling: false,
    size: 0,
    least: 0,
    period: 0,
    jitter: 0,
};

const NO_PORT: Port = Port {
    perbyte: 0,
    least: 0,
    greatest: 0,
};

const NO_HOP: Hop = Hop {
    vl: 0,
    port: 0,
    parent: None,
};

// The numbers of a VL are read as less than this, so that its gap in ticks is a number of 64 bits.
const VL_BELOW: u64 = 65_536;

impl Sheet {
    // The sheet of no network: zeros.
    pub fn blank() -> Sheet
        ensures { result ≡ blank }
    {
        Sheet {
            header: [0; HEADER_LIST],
            counts: NO_RECORDS,
            systems: [0; SYSTEMS],
            vls: [0; VLS],
            streams: [0; STREAMS],
            ports: [0; PORTS],
            hops: [0; HOPS],
        }
    }

    pub fn clear(&mut self)
        ensures { self.new ≡ blank }
    {
        *self = Sheet::blank();
    }

    // ---- how many there are: as the sheet says, and no more than it has room for
    pub fn systems(&self) -> usize
        ensures is { result ≡ length (network_on self.now).systems }
        ensures few { result ≤ limits.systems }
    {
        at_most(self.counts.systems, sizes::MOST_SYSTEMS)
    }

    pub fn vls(&self) -> usize
        ensures is { result ≡ length (network_on self.now).vls }
        ensures few { result ≤ limits.vls }
    {
        at_most(self.counts.vls, sizes::MOST_VLS)
    }

    pub fn streams(&self) -> usize
        ensures is { result ≡ length (network_on self.now).streams }
        ensures few { result ≤ limits.streams }
    {
        at_most(self.counts.streams, sizes::MOST_STREAMS)
    }

    pub fn ports(&self) -> usize
        ensures is { result ≡ length (network_on self.now).ports }
        ensures few { result ≤ limits.ports }
    {
        at_most(self.counts.ports, sizes::MOST_PORTS)
    }

    pub fn hops(&self) -> usize
        ensures is { result ≡ length (network_on self.now).hops }
        ensures few { result ≤ limits.hops }
    {
        at_most(self.counts.hops, sizes::MOST_HOPS)
    }

    // ---- the records; past the last row a record of zeros
    pub fn delays(&self) -> Delays
        ensures { result ≡ delays_in (network_on self.now) }
    {
        Delays {
            send_least: self.header[places::LIST_SEND_LEAST],
            send_greatest: self.header[places::LIST_SEND_GREATEST],
            receive_least: self.header[places::LIST_RECEIVE_LEAST],
            receive_greatest: self.header[places::LIST_RECEIVE_GREATEST],
        }
    }

    pub fn system(&self, e: usize) -> EndSystem
        ensures { result ≡ system_at (network_on self.now) e }
    {
        if self.systems() <= e {
            return NO_SYSTEM;
        }
        EndSystem {
            perbyte: ticks_at(self.systems[e * sizes::SYSTEM + places::SYSTEM_SPEED]),
        }
    }

    pub fn vl(&self, v: usize) -> Vl
        ensures { result ≡ vl_at (network_on self.now) v }
    {
        if self.vls() <= v {
            return NO_VL;
        }
        let at = v * sizes::VL;
        Vl {
            system: (self.vls[at + places::VL_SYSTEM] % VL_BELOW) as usize,
            gap: Tick::PER_MS * (self.vls[at + places::VL_GAP] % VL_BELOW),
            sublinks: (self.vls[at + places::VL_SUBLINKS] % VL_BELOW) as usize,
            lmax: self.vls[at + places::VL_LMAX] % VL_BELOW,
        }
    }

    pub fn stream(&self, s: usize) -> Stream
        ensures { result ≡ stream_at (network_on self.now) s }
    {
        if self.streams() <= s {
            return NO_STREAM;
        }
        self.stream_row(s)
    }

    pub fn port(&self, p: usize) -> Port
        ensures { result ≡ port_at (network_on self.now) p }
    {
        if self.ports() <= p {
            return NO_PORT;
        }
        let at = p * sizes::PORT;
        Port {
            perbyte: ticks_at(self.ports[at + places::PORT_SPEED]),
            least: self.ports[at + places::PORT_LEAST],
            greatest: self.ports[at + places::PORT_GREATEST],
        }
    }

    pub fn hop(&self, h: usize) -> Hop
        ensures { result ≡ hop_at (network_on self.now) h }
    {
        if self.hops() <= h {
            return NO_HOP;
        }
        self.hop_row(h)
    }
}

// std's `min` would not do: the code of a program is linked from our own crates' alone (order/proofs/There).
fn at_most(stored: usize, most: usize) -> usize
    ensures { result ≡ min stored most }
{
    if stored < most { stored } else { most }
}

// The ticks that a byte takes at a speed of 100 or 10 Mbit/s.
fn ticks_at(mbit: u64) -> u64
    ensures { result ≡ ticks_at in_force mbit }
{
    if mbit == 100 {
        Tick::per_byte(Speed::Mbit100)
    } else {
        Tick::per_byte(Speed::Mbit10)
    }
}
