// Flows by formula, as in bench/stations.h: groups of one period, and mixes by a generator of numbers.
use station::Flow;

// How many flows of a plan are built: one more than a station takes.
pub const BUILT: usize = 1_025;

const NO_FLOW: Flow = Flow {
    period: 0,
    jitter: 0,
    cost: 0,
};

// Flows of one period. All of them bring one at tick 0. The second of flow j comes at tick (first + j * gap) mod period, or a whole period later where that is 0: so the jitter is what is left of the period then, and `rounds` periods more bring as many others at tick 0. The cost is one more for the first `more` of them.
#[derive(Clone, Copy)]
pub struct Group {
    pub count: u32,
    pub period: u32,
    pub first: u32,
    pub gap: u32,
    pub cost: u32,
    pub more: u32,
    pub rounds: u32,
}

impl Group {
    fn flow(self, j: u32) -> Flow {
        let period = self.period as u64;
        Flow {
            period,
            jitter: self.rounds as u64 * period + self.left(j) as u64,
            cost: self.cost as u64 + (j < self.more) as u64,
        }
    }

    // What is left of the period when the second of flow j comes.
    fn left(self, j: u32) -> u32 {
        let second = self.first as u64 + j as u64 * self.gap as u64;
        match second.checked_rem(self.period as u64) {
            None | Some(0) => 0,
            Some(second) => self.period - second as u32,
        }
    }
}

// The flow at place i of groups one after the other.
fn of_groups(groups: &[Group], i: u32) -> Flow {
    let mut j = i;
    for group in groups {
        if j < group.count {
            return group.flow(j);
        }
        j -= group.count;
    }
    NO_FLOW
}

// A generator of numbers.
#[derive(Drop)]
struct Numbers {
    last: u32,
}

impl Numbers {
    // The upper half of the next number.
    fn next(&mut self) -> u32 {
        self.last = self
            .last
            .wrapping_mul(1_664_525)
            .wrapping_add(1_013_904_223);
        self.last >> 16
    }
}

const GAPS: [u64; 8] = [
    12_500, 25_000, 50_000, 100_000, 200_000, 400_000, 800_000, 1_600_000,
];

// The flow at place i of a port.
fn of_port(i: usize, numbers: &mut Numbers, low: usize, spread: u32) -> Flow {
    let [a, b, c] = [numbers.next(), numbers.next(), numbers.next()];
    let low = low % 8;
    let code = if i % 128 == 0 {
        i / 128 % 8
    } else {
        low + a as usize % (8 - low)
    };
    Flow {
        period: GAPS[code],
        jitter: c as u64,
        cost: 84 + b as u64 % (spread as u64 + 1),
    }
}

// The next flow of a queue.
fn of_queue(numbers: &mut Numbers, base: u32, step: u32) -> Flow {
    let [a, b, c] = [numbers.next(), numbers.next(), numbers.next()];
    Flow {
        period: base as u64 + a as u64 * step as u64,
        jitter: c as u64,
        cost: 12_500 * (1 + b as u64 % 2),
    }
}

// What a station has.
#[derive(Clone, Copy)]
pub enum Plan<'a> {
    // groups one after the other
    Groups(&'a [Group]),
    // the flows of a port by a generator: gaps of 12,500 * 2^code, mostly of codes from `low` on, and costs of 84 to 84 + spread
    Port { seed: u32, low: usize, spread: u32 },
    // those of a queue: periods from `base` on in steps, and 1 or 2 packets of a gap of 12,500 ticks
    Queue { seed: u32, base: u32, step: u32 },
}

// The flows of a plan.
pub fn built(plan: Plan<'_>) -> [Flow; BUILT] {
    let mut flows = [NO_FLOW; BUILT];
    match plan {
        Plan::Groups(groups) => {
            for (i, flow) in flows.iter_mut().enumerate() {
                *flow = of_groups(groups, i as u32);
            }
        }
        Plan::Port { seed, low, spread } => {
            let mut numbers = Numbers { last: seed };
            for (i, flow) in flows.iter_mut().enumerate() {
                *flow = of_port(i, &mut numbers, low, spread);
            }
        }
        Plan::Queue { seed, base, step } => {
            let mut numbers = Numbers { last: seed };
            for flow in &mut flows {
                *flow = of_queue(&mut numbers, base, step);
            }
        }
    }
    flows
}
