// Frames in numbers: the most bytes that a frame occupies on the line, and the packets of a message.
// What the rule refuses is 0; a table that the reader accepts has no such frame.
ghost use Rattle.std.specs.Prelude.{◌≡◌};
ghost use Rattle.base.specs.Tests.{number_or0};
ghost use Rattle.frame.specs.Offered.{largest_line_of, packets_of};

#[tactic(auto, unfolding(base::specs::Tests::number_or0))]
pub fn line(lmax: u64) -> u64
    ensures { result ≡ number_or0 (largest_line_of lmax) }
{
    match frame::largest_line(lmax) {
        Some(bytes) => bytes,
        None => 0,
    }
}

#[tactic(auto, unfolding(base::specs::Tests::number_or0))]
pub fn packets(m: u64, lmax: u64) -> u64
    ensures { result ≡ number_or0 (packets_of m lmax) }
{
    match frame::packets_of(m, lmax) {
        Some(n) => n,
        None => 0,
    }
}
