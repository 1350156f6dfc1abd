// The network of an accepted table, as it stands on a sheet: what nearly every figure asks for, as a type.
// What its field says is taken out of it by `good_of` (proofs/GoodLaws).
ghost use Rattle.std.specs.Prelude.{◌≡◌};
ghost use Rattle.sheet.specs.Sheet.{Good};

use crate::Sheet;

#[derive(Clone, Copy)]
pub struct Accepted<'a> {
    pub sheet: &'a Sheet,
    pub ghost good: { ∥ Good sheet.now ∥₁ },
}

impl<'a> Accepted<'a> {
    pub fn new(sheet: &'a Sheet) -> Accepted<'a>
        requires { Good sheet.now }
        ensures { result.sheet.now ≡ sheet.now }
    {
        Accepted { sheet }
    }
}
