// The words of docs/TABLE.md: what a section's record and the number in a field are called. What a field is called, `notation` says.
// No number stands here but those of sections and of the parts that are named by one.
use layout::Name;

pub fn section(section: usize) -> &'static str {
    match section {
        0 => "header",
        1 => "end system",
        2 => "VL",
        3 => "stream",
        4 => "port",
        5 => "hop",
        _ => ""
    }
}

// What the number counts or names. A gap and a speed are codes, whose values the layout tells.
pub fn unit(name: Name) -> &'static str {
    match name {
        Name::Version => "of this layout",
        Name::EndSystems => "records of section 1",
        Name::Vls => "records of section 2",
        Name::Streams => "records of section 3",
        Name::Ports => "records of section 4",
        Name::Hops => "records of section 5",
        Name::SendLeast
        | Name::SendGreatest
        | Name::ReceiveLeast
        | Name::ReceiveGreatest
        | Name::Period
        | Name::Jitter
        | Name::SwitchLeast
        | Name::SwitchGreatest => "ticks of 80 ns",
        Name::Padding => "fills the last byte",
        Name::Speed | Name::Gap => "code",
        Name::EndSystem => "row of section 1",
        Name::SubLinks => "sub-links less one",
        Name::Lmax | Name::Size | Name::LeastSize => "bytes",
        Name::Vl => "row of section 2",
        Name::SubLink => "sub-link of the VL, from 0",
        Name::Kind => "0: queuing, 1: sampling",
        Name::Port => "row of section 4",
        Name::Parent => "0: none, else row of section 5 plus 1",
    }
}
