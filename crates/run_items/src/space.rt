// Places for the six lists of an item, of which the first are lent: as many as the item says.
// What each place holds before a call shows whether it was written.
use crate::input::read_numbers;
use crate::{BEFORE, first, first_mut};
use std::io::Stdin;
use table::{Lists, ListsMut};

// How many places there are for the header's list and for each section's.
pub const LENGTHS: [usize; 6] = [8, 66, 1_030, 3_600, 390, 3_080];

#[derive(Drop)]
pub struct Space {
    header: [u64; 8],
    systems: [u64; 66],
    vls: [u64; 1_030],
    streams: [u64; 3_600],
    ports: [u64; 390],
    hops: [u64; 3_080],
}

impl Space {
    pub const UNWRITTEN: Space = Space {
        header: [BEFORE; 8],
        systems: [BEFORE; 66],
        vls: [BEFORE; 1_030],
        streams: [BEFORE; 3_600],
        ports: [BEFORE; 390],
        hops: [BEFORE; 3_080],
    };

    pub fn first(&self, lengths: [usize; 6]) -> Lists<'_> {
        let [header, systems, vls, streams, ports, hops] = lengths;
        Lists {
            header: first(&self.header, header),
            systems: first(&self.systems, systems),
            vls: first(&self.vls, vls),
            streams: first(&self.streams, streams),
            ports: first(&self.ports, ports),
            hops: first(&self.hops, hops),
        }
    }

    pub fn first_mut(&mut self, lengths: [usize; 6]) -> ListsMut<'_> {
        let Space {
            header,
            systems,
            vls,
            streams,
            ports,
            hops,
        } = self;
        ListsMut {
            header: first_mut(header, lengths[0]),
            systems: first_mut(systems, lengths[1]),
            vls: first_mut(vls, lengths[2]),
            streams: first_mut(streams, lengths[3]),
            ports: first_mut(ports, lengths[4]),
            hops: first_mut(hops, lengths[5]),
        }
    }

    pub fn read(&mut self, stdin: Stdin, lengths: [usize; 6]) {
        let lists = self.first_mut(lengths);
        read_numbers(stdin, lists.header);
        read_numbers(stdin, lists.systems);
        read_numbers(stdin, lists.vls);
        read_numbers(stdin, lists.streams);
        read_numbers(stdin, lists.ports);
        read_numbers(stdin, lists.hops);
    }
}
