// One field: what a stored number means, and how a meaning is stored.
// A number that is out of range is refused, either way.
ghost use Rattle.std.specs.Prelude.{◌≡◌, ◌≤◌, None, Some};
ghost use Rattle.base.specs.Pick.{pick, within};
ghost use Rattle.layout.specs.Fields.{meaning, stored_as, convert};

use crate::{Kind, Shape, Way};

// What a stored number means.
#[tactic(auto, using(std::proofs::lemmas::Bool::Decides::nat_tests, crate::proofs::FieldLaws::padding_is), unfolding(crate::specs::Fields::meaning))]
fn meaning_of(kind: Kind, n: u64) -> Option<u64>
    ensures { result ≡ meaning kind n }
{
    match kind {
        Kind::Number(low, high) => between(low, high, n),
        Kind::Reference => Some(n),
        Kind::Padding => between(0, 0, n),
        Kind::Gap => frame::ms_of(n),
        Kind::LessOne => match n {
            0..=3 => Some(n + 1),
            _ => None,
        },
        Kind::Speed => match n {
            0 => Some(100),
            1 => Some(10),
            _ => None,
        },
    }
}

// How a meaning is stored in a field of this width.
#[tactic(auto, using(std::proofs::lemmas::Bool::Decides::nat_tests, crate::proofs::FieldLaws::padding_is, crate::proofs::FieldLaws::reference_is), unfolding(crate::specs::Fields::stored_as, crate::specs::Fields::meaning))]
fn stored_as(kind: Kind, width: usize, v: u64) -> Option<u64>
    requires { width ≤ 32 }
    ensures { result ≡ stored_as kind width v }
{
    match kind {
        Kind::Number(low, high) => between(low, high, v),
        Kind::Reference => between(0, (1u64 << width) - 1, v),
        Kind::Padding => between(0, 0, v),
        Kind::Gap => frame::code_of(v),
        Kind::LessOne => match v {
            1..=4 => Some(v - 1),
            _ => None,
        },
        Kind::Speed => match v {
            100 => Some(0),
            10 => Some(1),
            _ => None,
        },
    }
}

// A number that is from low to high.
fn between(low: u64, high: u64, n: u64) -> Option<u64>
    ensures { result ≡ pick (within low high n) (Some n) None }
{
    if low <= n && n <= high { Some(n) } else { None }
}

#[tactic(auto, unfolding(crate::specs::Fields::convert))]
#[inline(always)]
pub fn convert_field(way: Way, shape: Shape, n: u64) -> Option<u64>
    requires { shape.width ≤ 32 }
    ensures { result ≡ convert way shape n }
{
    match way {
        Way::Reading => meaning_of(shape.kind, n),
        Way::Writing => stored_as(shape.kind, shape.width, n),
    }
}
