//! Exact sums, in the word of their full type.
ghost use Rattle.std.specs.Prelude.{◌≡◌, ◌≤ℤ◌, ◌+ℤ◌, take, zip, All, pos};
ghost use Rattle.math_num.specs.Word.{IsWord, IsWrapped};
ghost use Rattle.fx_type.specs.FxType.{frac_of, aligned};
ghost use Rattle.fx_type.specs.FullType.{negated_if, IsFullSum};
ghost use Rattle.dg_model.specs.Operation.{signed_sum};
ghost use Rattle.hw_lower.specs.inner.PlanSteps.{IsAt, IsMade, word_of};
ghost use Rattle.hw_lower.specs.inner.Spread.{AreTerms, CanAlign, OfArguments};

use crate::aligning::{Side, align, side_of};
use crate::plan::{Operand, Plan, Word, binary, unary, word_of};
use fx_type::FxType;
use hw_net::NetOp;

/// A sum with one more term.
pub fn add_term(
    plan: &mut Plan,
    total: Operand,
    negative: bool,
    side: Side,
    frac: i16,
    word: Word,
) -> Operand
    requires total { IsAt plan.old total }
    requires can { CanAlign plan.old side frac word }
    ensures { IsMade plan.old plan.new word (λ numbers. IsWrapped
        (numbers total.place +ℤ negated_if negative
        (aligned frac side.kind (numbers side.from.place))) word.width word.signed
        (numbers result.place)) result }
{
    let value = align(plan, side, frac, word);
    if negative {
        return binary(plan, NetOp::Subtract, total, value, word);
    }
    binary(plan, NetOp::Add, total, value, word)
}

/// The sum of the arguments with their signs, in the word and the units of its full type. Each step
/// is cut to the word, which has the whole sum.
pub fn sum_arguments(plan: &mut Plan, signs: &[bool], types: &[FxType], full: FxType) -> Operand
    requires terms { AreTerms plan.old signs.now types.now }
    requires full { IsFullSum (zip signs.now types.now) full }
    ensures { IsMade plan.old plan.new (word_of full) (λ numbers.
        OfArguments types.now numbers (λ values. numbers result.place
        ≡ signed_sum (frac_of full) (zip signs.now types.now) values)) result }
{
    add_up(plan, signs, types, full.frac(), word_of(full))
}

/// The sum of the arguments with their signs, cut to a word, in a unit of which none has more bits
/// behind the point.
pub fn add_up(plan: &mut Plan, signs: &[bool], types: &[FxType], frac: i16, word: Word) -> Operand
    requires terms { AreTerms plan.old signs.now types.now }
    requires above { All (λ type. frac_of type ≤ℤ frac) types.now }
    requires high { frac ≤ℤ pos 128 }
    requires word { IsWord word.width word.signed }
    ensures { IsMade plan.old plan.new word (λ numbers.
        OfArguments types.now numbers (λ values. IsWrapped
        (signed_sum frac (zip signs.now types.now) values)
        word.width word.signed (numbers result.place))) result }
{
    let first = first_term(plan, signs, types, frac, word);
    let mut total = first;
    for input in 1..types.len() {
        let side = side_of(types, input);
        total = add_term(plan, total, signs[input], side, frac, word);
    }
    total
}

/// The first term of the arguments.
fn first_term(plan: &mut Plan, signs: &[bool], types: &[FxType], frac: i16, word: Word) -> Operand
    requires terms { AreTerms plan.old signs.now types.now }
    requires above { All (λ type. frac_of type ≤ℤ frac) types.now }
    requires high { frac ≤ℤ pos 128 }
    requires word { IsWord word.width word.signed }
    ensures { IsMade plan.old plan.new word (λ numbers.
        OfArguments types.now numbers (λ values. IsWrapped
        (signed_sum frac (take 1 (zip signs.now types.now)) (take 1 values))
        word.width word.signed (numbers result.place))) result }
{
    let side = side_of(types, 0);
    let value = align(plan, side, frac, word);
    if signs[0] {
        return unary(plan, NetOp::Negate, value, word);
    }
    value
}
