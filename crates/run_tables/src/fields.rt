// The whole case with one field changed at a time: the field at its limits, and one past them.
// A line has the field's first bit, its value and the reader's answer.
use crate::print::answer;
use crate::whole::whole_case;
use bits::Cursor;
use std::io;

// A field's first bit, its width, and the first and the last of the values that it is given in turn.
const CHANGES: [(usize, usize, u64, u64); 44] = [
    // Version, counts.
    (0, 8, 0, 0),
    (0, 8, 2, 2),
    (8, 8, 64, 65),
    (16, 12, 256, 257),
    (28, 12, 512, 513),
    (40, 8, 128, 129),
    (48, 12, 1_024, 1_025),

    // The header's delays and padding.
    (60, 12, 1_000, 1_001),
    (72, 12, 1_875, 1_876),
    (84, 12, 501, 501),
    (96, 12, 499, 499),
    (96, 12, 1_875, 1_876),
    (108, 4, 1, 1),

    // End system 0: speed, padding; VL 1: end system, gap, sub-links, Lmax.
    (112, 1, 1, 1),
    (113, 7, 1, 1),
    (144, 8, 1, 1),
    (152, 3, 7, 7),
    (155, 2, 3, 3),
    (157, 11, 63, 64),
    (157, 11, 1_518, 1_519),

    // Stream 1: VL, sub-link, kind, M, least M.
    (272, 12, 2, 2),
    (284, 2, 1, 1),
    (286, 1, 0, 0),
    (287, 14, 0, 0),
    (287, 14, 470, 470),
    (287, 14, 8_192, 8_193),
    (301, 14, 0, 0),
    (301, 14, 469, 470),

    // Stream 1: period, jitter, padding.
    (315, 27, 12_499, 12_500),
    (315, 27, 125_000_000, 125_000_001),
    (342, 27, 125_000_000, 125_000_001),
    (369, 7, 64, 64),

    // Port 0: speed, switch delay, padding.
    (376, 1, 1, 1),
    (377, 12, 1_250, 1_251),
    (389, 12, 874, 874),
    (389, 12, 1_251, 1_251),
    (401, 7, 1, 1),

    // Hop 1: VL, port, parent; hop 0: VL, parent.
    (440, 12, 2, 2),
    (440, 12, 0, 0),
    (452, 8, 1, 1),
    (460, 12, 1, 3),
    (460, 12, 4_095, 4_095),
    (408, 12, 1, 1),
    (428, 12, 2, 2),
];

fn changed(rt: &impl Print, at: usize, width: usize, value: u64) -> io::Result<()> {
    let mut bytes = whole_case();
    Cursor::new(at).put(&mut bytes, width, value);
    print!(rt; "{at} {value}: ")?;
    answer(rt, reader::check(&bytes).err())
}

pub fn limits(rt: &impl Print) -> io::Result<()> {
    println!(rt; "the whole case with one field changed: first bit, value: the reader's answer")?;
    for (at, width, first, last) in CHANGES {
        for value in first..=last {
            changed(rt, at, width, value)?;
        }
    }
    Ok(())
}
