// Runs the frame rule on the sizes and times that source 000 publishes, on 01's numbers 1 and 2, and at the ends of its ranges.
// It writes one line a case; the lines are compared with stdout.
#![tactic(auto)]

use console::Heedless;
use frame::Tick;
use std::io;

fn answer(rt: &impl Print, said: Option<u64>) -> io::Result<()> {
    match said {
        Some(n) => println!(rt; "{n}"),
        None => println!(rt; "refused 4"),
    }
}

// The bytes of a line size, and the time in µs that they take at 100 Mbit/s: a tick is 80 ns, which are 8 hundredths of a µs.
fn line(rt: &impl Print, payload: u64) -> io::Result<()> {
    let Some(bytes) = frame::line_of(payload) else {
        return answer(rt, None);
    };
    let hundredths = bytes.saturating_mul(Tick::PER_BYTE_AT_100 * 8);
    println!(rt;
        "{bytes} bytes {}.{:02} us",
        hundredths / 100,
        hundredths % 100
    )
}

fn packets(rt: &impl Print, m: u64, lmax: u64) -> io::Result<()> {
    answer(rt, frame::packets_of(m, lmax))
}

fn sources(rt: &impl Print) -> io::Result<()> {
    println!(rt; "000, the least and the greatest frame")?;
    for payload in [17, 1471] {
        line(rt, payload)?;
    }
    println!(rt; "000, Table 2: M1, M2, M3")?;
    for (m, lmax, payload) in [(306, 200, 153), (153, 200, 153), (953, 1000, 953)] {
        packets(rt, m, lmax)?;
        line(rt, payload)?;
    }
    Ok(())
}

fn numbers(rt: &impl Print) -> io::Result<()> {
    println!(rt; "01, numbers 1 and 2")?;
    for payload in [17, 18, 1471, 0, 1472] {
        line(rt, payload)?;
    }
    for (m, lmax) in [(1471, 1518), (1472, 1518), (100, 64)] {
        packets(rt, m, lmax)?;
    }
    Ok(())
}

fn ranges(rt: &impl Print) -> io::Result<()> {
    println!(rt; "packets: Lmax 63, 47, 1519; M 0, 8192, 8193")?;
    for (m, lmax) in [(1, 63), (1, 47), (1, 1519), (0, 64), (8192, 64), (8193, 64)] {
        packets(rt, m, lmax)?;
    }
    println!(rt;
        "packets: M 113, 114 at Lmax 64, where a full fragment has 24 bytes and the last up to 25; 2943, 2944 at 1518"
    )?;
    for (m, lmax) in [(113, 64), (114, 64), (2943, 1518), (2944, 1518)] {
        packets(rt, m, lmax)?;
    }
    println!(rt; "20 + Lmax: 63, 64, 1518, 1519")?;
    for lmax in [63, 64, 1518, 1519] {
        answer(rt, frame::largest_line(lmax))?;
    }
    Ok(())
}

// The code of a gap, the gap of the code, and its ticks.
fn gap(rt: &impl Print, ms: u64) -> io::Result<()> {
    let Some(code) = frame::code_of(ms) else {
        return answer(rt, None);
    };
    print!(rt; "{code} ")?;
    answer(rt, frame::ms_of(code))?;
    answer(rt, frame::gap_of(code))
}

fn gaps(rt: &impl Print) -> io::Result<()> {
    println!(rt; "gaps of 0, 1, 2, 3, 64, 96, 128, 256 ms; code 8")?;
    for ms in [0, 1, 2, 3, 64, 96, 128, 256] {
        gap(rt, ms)?;
    }
    answer(rt, frame::gap_of(8))?;
    answer(rt, frame::ms_of(8))
}

fn main() {
    let _ = sources(&Heedless);
    let _ = numbers(&Heedless);
    let _ = ranges(&Heedless);
    let _ = gaps(&Heedless);
}
