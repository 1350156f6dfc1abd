// What the fields of a table are called and what begins the line of a section, by themselves and put in a text.
// These words stand here and nowhere else in code. Each routine answers for all input: what does not fit is left out.
ghost use Rattle.std.specs.Prelude.{[], ◌≡◌, get_or};
ghost use Rattle.text.specs.Gains.{Gains};
ghost use Rattle.notation.specs.Notation.{keywords};
ghost use Rattle.notation.specs.Called.{called};

use layout::Name;
use text::Text;

// The word that begins a line of a section: of section 0 that of the delays, of 6 the version; none of any other.
#[tactic(auto, unfolding(crate::specs::Notation::keywords))]
pub fn keyword(section: usize) -> &'static [u8]
    ensures { result.now ≡ get_or keywords section [] }
{
    match section {
        0 => b"delays",
        1 => b"system",
        2 => b"vl",
        3 => b"stream",
        4 => b"port",
        5 => b"hop",
        6 => b"version",
        _ => b"",
    }
}

// The name of a field.
#[tactic(auto, unfolding(crate::specs::Called::called))]
pub fn name_of(name: Name) -> &'static [u8]
    ensures { result.now ≡ called name }
{
    match name {
        Name::Version => b"version",
        Name::EndSystems => b"end systems",
        Name::Vls => b"VLs",
        Name::Streams => b"streams",
        Name::Ports => b"ports",
        Name::Hops => b"hops",
        Name::SendLeast => b"send delay least",
        Name::SendGreatest => b"send delay greatest",
        Name::ReceiveLeast => b"receive delay least",
        Name::ReceiveGreatest => b"receive delay greatest",
        Name::Padding => b"padding",
        Name::Speed => b"speed",
        Name::EndSystem => b"end system",
        Name::Gap => b"gap",
        Name::SubLinks => b"sub-links",
        Name::Lmax => b"Lmax",
        Name::Vl => b"VL",
        Name::SubLink => b"sub-link",
        Name::Kind => b"kind",
        Name::Size => b"M",
        Name::LeastSize => b"least M",
        Name::Period => b"period",
        Name::Jitter => b"jitter",
        Name::SwitchLeast => b"switch delay least",
        Name::SwitchGreatest => b"switch delay greatest",
        Name::Port => b"port",
        Name::Parent => b"parent",
    }
}

// The same, put in a text.
pub fn put_keyword(text: &mut Text<'_>, section: usize)
    ensures { Gains text.old (get_or keywords section []) text.new }
{
    text.put_bytes(keyword(section));
}

pub fn put_name(text: &mut Text<'_>, name: Name)
    ensures { Gains text.old (called name) text.new }
{
    text.put_bytes(name_of(name));
}
