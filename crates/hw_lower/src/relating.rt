//! Relations of numbers of two types, compared in their union.
ghost use Rattle.std.specs.Prelude.{◌≡◌};
ghost use Rattle.fx_type.specs.FxType.{InRange, frac_of, aligned};
ghost use Rattle.dg_model.specs.Operation.{compares_values, stored_truth, type_of, value_of};
ghost use Rattle.hw_lower.specs.inner.PlanSteps.{IsMade, bit_word, word_of};
ghost use Rattle.hw_lower.specs.inner.Spread.{CanCompare, CanWiden, OfArguments};

use crate::aligning::{Side, align, side_of};
use crate::comparing::compare;
use crate::plan::{Operand, Plan, word_of};
use dg_model::Relation;
use fx_type::{FxType, union};

/// A number in the word and the units of a type that has it.
fn widen(plan: &mut Plan, side: Side, holder: FxType) -> Operand
    requires { CanWiden plan.old side holder }
    ensures { IsMade plan.old plan.new (word_of holder) (λ numbers.
        InRange side.kind (numbers side.from.place) → numbers result.place
        ≡ aligned (frac_of holder) side.kind (numbers side.from.place)) result }
{
    align(plan, side, holder.frac(), word_of(holder))
}

/// Whether the real values of two arguments are so related, compared in the union of their types.
pub fn compare_arguments(plan: &mut Plan, operator: Relation, types: &[FxType]) -> Operand
    requires { CanCompare plan.old types.now }
    ensures { IsMade plan.old plan.new bit_word (λ numbers.
        OfArguments types.now numbers (λ values. numbers result.place
        ≡ stored_truth (compares_values operator (type_of types.now 0) (type_of types.now 1)
        (value_of values 0) (value_of values 1)))) result }
{
    let both = union(types[0], types[1]).unwrap();
    let one = side_of(types, 0);
    let other = side_of(types, 1);
    let left = widen(plan, one, both);
    let right = widen(plan, other, both);
    compare(plan, operator, left, right)
}
