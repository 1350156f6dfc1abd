// How a program reads, writes and gives up: a read that fails is told from the end of the input, and every write says whether it went out whole,
// but for what goes through `Heedless`.
// Every public routine answers for all input. What standard input gives and what is written no contract can say: C's read and write are assumed, and
// only their answers. Of a reader whose bytes are known, `read` says which of them it took.
#![tactic(auto)]

ghost use Rattle.std.specs.Prelude.{◌<◌, length, IsErr, IsOk};
ghost use Rattle.console.specs.Told.{Counted, Taken};

use std::fmt::{self, Display, Formatter};
use std::io::{Read, Stdin};

const STDOUT_FILENO: i32 = 1;

const STDERR_FILENO: i32 = 2;

// Some byte of a text did not go out.
#[derive(Clone, Copy, PartialEq, Eq, Debug)]
pub struct NotWritten;

// Reads until the buffer is full, the input ends or a read fails, and answers how many bytes came. Std's `read_exact` and `read_to_end`
// do not say what came before the end, or read on past the buffer: hence a loop of our own.
#[tactic(auto, using(crate::proofs::Reading::consumes_past))]
pub fn read<R: Read>(from: &mut R, buf: &mut [u8]) -> std::io::Result<usize>
    ensures counted { Counted result buf.new }
    ensures taken { Taken result (R.remaining from.old) (R.remaining from.new) buf.new }
{
    let mut done = 0;
    while done < buf.len() {
        let came = from.read(&mut buf[done..])?;
        if came == 0 {
            return Ok(done);
        }
        done += came;
    }
    Ok(done)
}

// The same of standard input.
pub fn read_input(mut stdin: Stdin, buf: &mut [u8]) -> std::io::Result<usize>
    ensures { Counted result buf.new }
{
    read(&mut stdin, buf)
}

// Writes the first bytes of a text to standard output. Of a text that has fewer none goes out.
pub fn write_first(text: &[u8], used: usize) -> Result<(), NotWritten>
    ensures { length text.now < used → IsErr result }
{
    write(text.get(..used).ok_or(NotWritten)?)
}

// Writes a text to standard output.
pub fn write(text: &[u8]) -> Result<(), NotWritten> {
    if io::write_all(STDOUT_FILENO, text) {
        Ok(())
    } else {
        Err(NotWritten)
    }
}

// Prints on standard output for a program that goes on where a write fails: every piece of a text is tried, and every answer is Ok.
// Std's own printing answers with C's error number, and so reaches more of C than its write.
#[derive(Clone, Copy)]
pub struct Heedless;

impl fmt::Write for Heedless {
    fn write_str(&mut self, piece: &str) -> fmt::Result
        ensures { IsOk result }
    {
        let _ = write(piece.as_bytes());
        Ok(())
    }
}

impl Print for Heedless {
    fn print<D: Display + Drop>(&self, value: D) -> std::io::Result<()>
        ensures { IsOk result }
    {
        let _ = Formatter::new(Heedless).write(&value);
        Ok(())
    }

    fn println<D: Display + Drop>(&self, value: D) -> std::io::Result<()>
        ensures { IsOk result }
    {
        let _ = self.print(value);
        self.write_all(b"\n")
    }

    fn write_all(&self, bytes: &[u8]) -> std::io::Result<()>
        ensures { IsOk result }
    {
        let _ = write(bytes);
        Ok(())
    }
}

// Says on standard error why there is no answer, or no whole one. Standard output has nothing of it.
pub fn give_up(sentence: &[u8]) {
    io::write_all(STDERR_FILENO, sentence);
}
