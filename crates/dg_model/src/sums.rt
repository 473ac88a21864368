//! The full type of a Sum.
ghost use Rattle.std.specs.Prelude.{◌≡◌, ◌≤◌, All, length, zip};
ghost use Rattle.fx_type.specs.declared.kind.FxType.{FxType};
ghost use Rattle.fx_type.specs.FxType.{IsType};
ghost use Rattle.fx_type.specs.FullType.{IsFullSum};

use fx_type::{FxType, full_sum};

/// The type of a sum that has one.
fn full_of(terms: &[(bool, FxType)]) -> FxType
    requires valid { All (λ term. IsType term.1) terms.now }
    requires some { 1 ≤ length terms.now }
    requires few { length terms.now ≤ 32 }
    requires full { (full : FxType) × IsFullSum terms.now full }
    ensures { IsFullSum terms.now result }
{
    full_sum(terms).unwrap()
}

/// The type of a Sum before it is converted, where it has one: its inputs have these types, and
/// `true` marks one that is subtracted (Fixed-Point Designer guide, full precision of a sum).
pub fn sum_type(signs: &[bool], types: &[FxType]) -> FxType
    requires signs { length signs.now ≡ length types.now }
    requires some { 1 ≤ length types.now }
    requires few { length types.now ≤ 32 }
    requires types { All IsType types.now }
    requires full { (full : FxType) × IsFullSum (zip signs.now types.now) full }
    ensures { IsFullSum (zip signs.now types.now) result }
{
    let mut terms = [(false, FxType::Logical); 32];
    for (input, kind) in types.iter().enumerate() {
        terms[input] = (signs[input], *kind);
    }
    full_of(&terms[..types.len()])
}
