// What a line is made of: numbers, answers and bytes in hex.
// Each goes to the standard output at once.
use std::io;
use table::{Answer, Refusal};

pub fn answer(rt: &impl Print, refusal: Option<Refusal>) -> io::Result<()> {
    let a = match refusal {
        Some(refusal) => refusal.answer(),
        None => Answer::ACCEPTED,
    };
    println!(rt; "{} {} {} test {}", a.number, a.section, a.row, a.test)
}

pub fn hex(rt: &impl Print, bytes: &[u8]) -> io::Result<()> {
    for byte in bytes {
        print!(rt; "{byte:02x}")?;
    }
    println!(rt;)
}

pub fn numbers(rt: &impl Print, list: &[u64]) -> io::Result<()> {
    for n in list {
        print!(rt; "{n} ")?;
    }
    println!(rt;)
}
