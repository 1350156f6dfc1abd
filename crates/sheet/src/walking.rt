// What a walk over the rows of a sheet reads: a record as it stands there, whatever the count says.
// The walk's own bound is no more than the sheet has room for, so that the one test of the row falls away in it.
ghost use Rattle.std.specs.Prelude.{◌≡◌};
ghost use Rattle.table.specs.Decoded.{parent_of};
ghost use Rattle.sheet.specs.Walks.{stream_row, hop_row, leaves_on};

use crate::{NO_HOP, NO_STREAM, Sheet};
use layout::sizes::{MOST_HOPS, MOST_STREAMS};
use layout::{places, sizes};
use network::{Hop, Stream};

impl Sheet {
    pub fn stream_row(&self, s: usize) -> Stream
        ensures { result ≡ stream_row self.now s }
    {
        if MOST_STREAMS <= s {
            return NO_STREAM;
        }
        let at = s * sizes::STREAM;
        Stream {
            vl: self.streams[at + places::STREAM_VL] as usize,
            sublink: self.streams[at + places::STREAM_SUBLINK] as usize,
            sampling: self.streams[at + places::STREAM_KIND] == 1,
            size: self.streams[at + places::STREAM_SIZE],
            least: self.streams[at + places::STREAM_LEAST_SIZE],
            period: self.streams[at + places::STREAM_PERIOD],
            jitter: self.streams[at + places::STREAM_JITTER],
        }
    }

    pub fn hop_row(&self, h: usize) -> Hop
        ensures { result ≡ hop_row self.now h }
    {
        if MOST_HOPS <= h {
            return NO_HOP;
        }
        let at = h * sizes::HOP;
        Hop {
            vl: self.hops[at + places::HOP_VL] as usize,
            port: self.hops[at + places::HOP_PORT] as usize,
            parent: parent_of(self.hops[at + places::HOP_PARENT] as usize),
        }
    }

    // Whether each hop is nobody's parent, in one walk.
    pub fn leaves(&self) -> [bool; MOST_HOPS]
        ensures { result ≡ leaves_on self.now }
    {
        let mut leaves = [true; MOST_HOPS];
        for h in 0..self.hops() {
            if let Some(g) = self.hop_row(h).parent {
                if g < MOST_HOPS {
                    leaves[g] = false;
                }
            }
        }
        leaves
    }
}

// A parent as it is stored: 0 for none, else its row + 1. (std's `checked_sub` would not do, as at `at_most`.)
fn parent_of(stored: usize) -> Option<usize>
    ensures { result ≡ parent_of stored }
{
    if stored == 0 { None } else { Some(stored - 1) }
}
