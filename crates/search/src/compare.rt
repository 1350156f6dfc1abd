// Differences that stop at 0, and the lesser of two numbers, as the definitions have them.
// They are written out, since a call of std's would leave code outside the program of order/specs/There, which has the code of these crates alone.
ghost use Rattle.std.specs.Prelude.{◌≡◌, ◌-◌, min};

pub fn less(a: u64, b: u64) -> u64
    ensures { result ≡ a - b }
{
    if a < b { 0 } else { a - b }
}

pub fn lesser(a: u64, b: u64) -> u64
    ensures { result ≡ min a b }
{
    if a < b { a } else { b }
}
