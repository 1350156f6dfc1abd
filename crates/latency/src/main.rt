// Reads a packed table from standard input and writes its result rows, or the word refused with number, section and row.
// All that matters is in `analysis`; here is what prints: each line is proved to be its numbers in decimal. A read or a write that fails is
// said on standard error, and nothing is written after it.
#![tactic(auto)]

ghost use Rattle.std.specs.Prelude.{◌≡◌, ◌+◌, ◌*◌, ◌≤◌, length, take, drop};
ghost use Rattle.text.specs.Text.{line};

use console::NotWritten;
use layout::sizes;
use text::Text;

// One byte more than the longest table, so that a longer one is seen to be too long.
const MOST_BYTES: usize = sizes::TABLE + 1;

// Six numbers a row.
const MOST_NUMBERS: usize = 6 * sizes::MOST_ROWS;

// The longest line: six numbers of at most twenty digits, five spaces and the line's end.
const LINE: usize = 126;

// The line of row i, in the room that is lent for it.
fn row_line<'a>(numbers: &[u64], i: usize, room: &'a mut [u8; LINE]) -> &'a [u8]
    requires { i * 6 + 6 ≤ length numbers.now }
    ensures { result.now ≡ line (take 6 (drop (i * 6) numbers.now)) }
{
    let start = i * 6;
    let mut text = Text::new(room);
    text.put_line(&numbers[start..start + 6]);
    text.written()
}

// Writes the heading and so many rows, up to the first write that fails.
fn write_rows(numbers: &[u64], rows: usize) -> Result<(), NotWritten>
    requires { rows * 6 ≤ length numbers.now }
{
    console::write(b"stream hop queue worst best jitter\n")?;
    for i in 0..rows {
        console::write(row_line(numbers, i, &mut [0; LINE]))?;
    }
    Ok(())
}

// Analyses a table and writes the answer.
fn write_answer(table: &[u8]) -> Result<(), NotWritten> {
    let mut numbers = [0; MOST_NUMBERS];
    match analysis::analyse(table, &mut numbers) {
        Ok(rows) => write_rows(&numbers, rows),
        Err(refusal) => console::write(text::refusal_line(
            refusal.answer(),
            &mut [0; text::REFUSAL],
        )),
    }
}

fn main(rt: HostRuntime) {
    let mut bytes = [0; MOST_BYTES];
    let Ok(used) = console::read_input(rt.stdin(), &mut bytes) else {
        return console::give_up(b"latency: the table could not be read\n");
    };
    if write_answer(&bytes[..used]).is_err() {
        console::give_up(b"latency: the answer could not be written whole\n");
    }
}
