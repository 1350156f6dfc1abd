// The records of a network, which code and definitions share; the network itself is a value of the definitions (specs/).
// Every time is in ticks, rows are numbered from 0, and there are no bytes here.
#![tactic(auto)]

// An end system: the ticks that a byte takes on its link.
#[derive(Clone, Copy)]
pub struct EndSystem {
    pub perbyte: u64,
}

// A virtual link: its end system, its gap (BAG), its number of sub-links and its largest frame in bytes.
#[derive(Clone, Copy)]
pub struct Vl {
    pub system: usize,
    pub gap: u64,
    pub sublinks: usize,
    pub lmax: u64,
}

// A message stream: its VL and sub-link (from 0), whether it is sampling, its greatest and least size in bytes, its period and its jitter.
#[derive(Clone, Copy)]
pub struct Stream {
    pub vl: usize,
    pub sublink: usize,
    pub sampling: bool,
    pub size: u64,
    pub least: u64,
    pub period: u64,
    pub jitter: u64,
}

// A switch port: the ticks that a byte takes on its link, and the bounds of the switch delay before it.
#[derive(Clone, Copy)]
pub struct Port {
    pub perbyte: u64,
    pub least: u64,
    pub greatest: u64,
}

// A hop: one VL at one port, and the row of the hop that is its parent, if it has one.
#[derive(Clone, Copy)]
pub struct Hop {
    pub vl: usize,
    pub port: usize,
    pub parent: Option<usize>,
}
