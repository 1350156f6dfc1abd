// The figures of a table: three lists, lent as one, which hold zeros behind what was found.
// They are too large to be handed over by value.
ghost use Rattle.std.specs.Prelude.{◌≡◌};
ghost use Rattle.figures.specs.Figures.{no_figures};

use layout::sizes::{MOST_HOPS, MOST_VLS, QUEUES};

// The mux waits by VL, the queue figures by sub-link (k of VL v at v * 4 + k) and the figures by hop.
#[derive(Clone, Copy)]
pub struct Figures {
    pub waits: [u64; MOST_VLS],
    pub queues: [u64; QUEUES],
    pub hops: [u64; MOST_HOPS],
}

impl Figures {
    #[tactic(auto, unfolding(crate::specs::Figures::no_figures))]
    pub fn blank() -> Figures
        ensures { result ≡ no_figures }
    {
        Figures {
            waits: [0; MOST_VLS],
            queues: [0; QUEUES],
            hops: [0; MOST_HOPS],
        }
    }

    pub fn clear(&mut self)
        ensures { self.new ≡ no_figures }
    {
        unpacker::clear(&mut self.waits);
        unpacker::clear(&mut self.queues);
        unpacker::clear(&mut self.hops);
    }
}
