// Stations built by formula: prints the busy length and the figure of each, by both doors of the station, numbers and records.
// Those of bench/stations.h that run for seconds are left out.
#![tactic(auto)]

mod plan;
mod records;

ghost use Rattle.std.specs.Prelude.{◌≤◌};

use console::Heedless;
use plan::{Group, Plan};
use station::{Busy, Refusal};
use std::{fmt, io};

// What a station says.
#[derive(Clone, Copy)]
struct Told(Result<Busy, Refusal>);

impl fmt::Display for Told {
    fn fmt<W: fmt::Write>(&self, f: &mut fmt::Formatter<W>) -> fmt::Result {
        match self.0 {
            Ok(busy) => write!(f, "{} {}", busy.length, busy.figure),
            Err(Refusal::OutOfRange) => write!(f, "refused 4"),
            Err(Refusal::Endless) => write!(f, "refused 10"),
        }
    }
}

// The first n flows of a plan: what the station says of them as numbers, and as records.
fn run(rt: &impl Print, name: &str, n: usize, plan: Plan<'_>) -> io::Result<()>
    requires { n ≤ 1025 }
{
    let flows = plan::built(plan);
    let as_numbers = Told(station::station_in(&records::numbers(&flows), n));
    let as_records = Told(records::told(&flows, n));
    println!(rt; "{name} {as_numbers} | {as_records}")
}

// As many flows as a station takes, of the shortest period and a cost of 1.
const FULL: Group = Group {
    count: 1_024,
    period: 12_500,
    first: 0,
    gap: 0,
    cost: 1,
    more: 0,
    rounds: 0,
};

// One of them.
const ONE: Group = Group { count: 1, ..FULL };

fn single(rt: &impl Print, name: &str, n: usize, group: Group) -> io::Result<()>
    requires { n ≤ 1025 }
{
    run(rt, name, n, Plan::Groups(&[group]))
}

// 1,023 small flows and one more, which is at an end of a range or one past it.
fn last(rt: &impl Print, name: &str, flow: Group) -> io::Result<()> {
    let small = Group {
        count: 1_023,
        ..FULL
    };
    run(rt, name, 1_024, Plan::Groups(&[small, flow]))
}

fn edges(rt: &impl Print) -> io::Result<()> {
    run(rt, "none", 0, Plan::Groups(&[]))?;
    let one = Group {
        cost: 1_538,
        rounds: 1,
        ..ONE
    };
    single(rt, "one", 1, one)?;
    for (name, period) in [
        ("short-period", 12_499),
        ("longest-period", 125_000_000),
        ("long-period", 125_000_001),
    ] {
        last(rt, name, Group { period, ..ONE })?;
    }
    for (name, first) in [("longest-jitter", 0), ("long-jitter", 124_999_999)] {
        let flow = Group {
            period: 125_000_000,
            first,
            rounds: 16,
            ..ONE
        };
        last(rt, name, flow)?;
    }
    for (name, cost) in [
        ("no-cost", 0),
        ("greatest-cost", 4_000_000_000),
        ("great-cost", 4_000_000_001),
    ] {
        last(rt, name, Group { cost, ..ONE })?;
    }
    let more = Group {
        count: 1_025,
        ..FULL
    };
    single(rt, "most", 1_024, more)?;
    single(rt, "too-many", 1_025, more)
}

fn usual(rt: &impl Print) -> io::Result<()> {
    for (name, seed, low, spread) in [
        ("port-30", 1, 6, 360),
        ("port-60", 2, 6, 900),
        ("port-90", 3, 5, 940),
    ] {
        run(rt, name, 1_024, Plan::Port { seed, low, spread })?;
    }
    for (name, seed, base, step) in [
        ("queue-30", 4, 36_000_000, 1_000),
        ("queue-60", 5, 18_000_000, 500),
        ("queue-90", 6, 12_000_000, 340),
    ] {
        run(rt, name, 1_024, Plan::Queue { seed, base, step })?;
    }
    Ok(())
}

fn near(rt: &impl Print) -> io::Result<()> {
    for (name, cost, more) in [
        ("near-99", 12, 87),
        ("near-999", 12, 200),
        ("above-one", 12, 300),
        ("twice", 24, 424),
    ] {
        let flows = Group {
            gap: 4_581,
            cost,
            more,
            ..FULL
        };
        single(rt, name, 1_024, flows)?;
    }
    Ok(())
}

fn crafted(rt: &impl Print) -> io::Result<()> {
    let ends = [
        Group {
            count: 450,
            first: 1,
            gap: 21,
            cost: 21,
            ..FULL
        },
        Group {
            count: 150,
            first: 9_451,
            gap: 20,
            cost: 20,
            ..FULL
        },
        Group {
            count: 424,
            period: 125_000_000,
            first: 5_100_000,
            gap: 5_000,
            cost: 20,
            ..FULL
        },
    ];
    run(rt, "ends-small", 1_024, Plan::Groups(&ends))?;
    let begins = [
        Group {
            count: 600,
            first: 1,
            gap: 20,
            ..FULL
        },
        Group {
            count: 424,
            period: 125_000_000,
            first: 1,
            gap: 1,
            cost: 140,
            ..FULL
        },
    ];
    run(rt, "begins-small", 1_024, Plan::Groups(&begins))?;
    let slip = [
        Group {
            count: 1_022,
            first: 9_979,
            gap: 1,
            ..FULL
        },
        Group {
            first: 11_001,
            cost: 8_958,
            ..ONE
        },
        Group {
            period: 15_000,
            cost: 2_520,
            ..ONE
        },
    ];
    run(rt, "slip-small", 1_024, Plan::Groups(&slip))?;
    let crest = [
        Group {
            first: 1,
            cost: 9_478,
            ..ONE
        },
        Group {
            count: 1_022,
            first: 2,
            gap: 1,
            ..FULL
        },
        Group {
            period: 50_000,
            cost: 3,
            ..ONE
        },
    ];
    run(rt, "crest-small", 1_024, Plan::Groups(&crest))
}

fn creeping(rt: &impl Print) -> io::Result<()> {
    let crest = [
        Group {
            count: 4,
            first: 1,
            cost: 1_456,
            more: 1,
            ..FULL
        },
        Group {
            count: 78,
            first: 85,
            gap: 84,
            cost: 84,
            ..FULL
        },
        Group {
            period: 50_000,
            cost: 87,
            ..ONE
        },
    ];
    run(rt, "crest-port-small", 83, Plan::Groups(&crest))?;
    let creep = Group {
        period: 12_501,
        first: 2_502,
        cost: 12_500,
        ..ONE
    };
    single(rt, "creep-queue", 1, creep)
}

fn main() {
    let _ = edges(&Heedless);
    let _ = usual(&Heedless);
    let _ = near(&Heedless);
    let _ = crafted(&Heedless);
    let _ = creeping(&Heedless);
}
