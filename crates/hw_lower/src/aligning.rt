//! Numbers of several types in one unit.
ghost use Rattle.std.specs.Prelude.{◌≡◌, ◌<◌, ◌≤◌, length};
ghost use Rattle.math_num.specs.Word.{IsWrapped};
ghost use Rattle.fx_type.specs.FxType.{aligned};
ghost use Rattle.hw_lower.specs.inner.PlanSteps.{IsMade, word_of};
ghost use Rattle.hw_lower.specs.inner.Spread.{CanAlign, argument_of, side_of};

use crate::plan::{Operand, Plan, Word, word_of};
use crate::settling::shift;
use fx_type::FxType;

/// A step with its type.
#[derive(Clone, Copy)]
pub struct Side {
    pub kind: FxType,
    pub from: Operand,
}

/// An argument of the plan.
pub fn argument_of(types: &[FxType], input: usize) -> Operand
    requires inside { input < length types.now }
    requires few { length types.now ≤ 32 }
    ensures { result ≡ argument_of types.now input }
{
    Operand {
        place: input as u32,
        word: word_of(types[input]),
    }
}

/// The same with its type.
pub fn side_of(types: &[FxType], input: usize) -> Side
    requires inside { input < length types.now }
    requires few { length types.now ≤ 32 }
    ensures { result ≡ side_of types.now input }
{
    let from = argument_of(types, input);
    Side {
        kind: types[input],
        from,
    }
}

/// A number of a type with `frac` bits behind the point, of which there are no fewer, cut to a
/// word.
pub fn align(plan: &mut Plan, side: Side, frac: i16, word: Word) -> Operand
    requires { CanAlign plan.old side frac word }
    ensures { IsMade plan.old plan.new word (λ numbers.
        IsWrapped (aligned frac side.kind (numbers side.from.place)) word.width word.signed
        (numbers result.place)) result }
{
    let up = (frac - side.kind.frac()) as u8;
    shift(plan, side.from, up, word)
}
