//! The plan of each operation.
ghost use Rattle.std.specs.Prelude.{◌≡◌, ◌≤ℤ◌, ◌<◌, ◌≤◌, pos, negsuc, length, zip, MatchBool};
ghost use Rattle.std.specs.Prelude.{Some, None, [], ◌∷◌, false};
ghost use Rattle.fx_type.specs.declared.kind.FxType.{FxType};
ghost use Rattle.fx_type.specs.FxType.{IsType, InRange, frac_of};
ghost use Rattle.fx_type.specs.FullType.{IsFullSum, IsFullProduct};
ghost use Rattle.fx_type.specs.Conversion.{Converts};
ghost use Rattle.dg_model.specs.Operation.{operation_of, without_frac, type_of, value_of};
ghost use Rattle.dg_model.specs.declared.op.Op.TheVariants.{Convert, Sum};
ghost use Rattle.dg_model.specs.Operation.{signed_sum, meets, Gives, IsConverted, IsStep, OpGives};
ghost use Rattle.hw_lower.specs.inner.PlanSteps.{IsAt, IsMade, word_of};
ghost use Rattle.hw_lower.specs.inner.Spread.{CanPlan, HasArguments, OfArguments, IsPlanned, IsScaled};
ghost use Rattle.hw_lower.specs.Lowered.{CanTotal, GivesOfTotals, multiply_of};

use crate::aligning::{Side, align, argument_of, side_of};
use crate::comparing::{Branches, switch};
use crate::gates::gate;
use crate::plan::{Operand, Plan, Word, constant, multiply, put_alone, word_of};
use crate::relating::compare_arguments;
use crate::settling::convert;
use crate::sums::{add_term, add_up, sum_arguments};
use dg_model::{Criterion, Op, OpCall, sum_type, without_frac};
use fx_type::FxType;
use hw_net::NetOp;

/// A number with `frac` bits behind the point, converted to the result type of the call.
fn convert_to_result(plan: &mut Plan, call: &OpCall, from: Operand, frac: i16) -> Operand
    requires at { IsAt plan.old from }
    requires low { negsuc 63 ≤ℤ frac }
    requires high { frac ≤ℤ pos 128 }
    requires result { IsType call.now.result }
    ensures { IsMade plan.old plan.new (word_of call.now.result) (λ numbers.
        (kind : FxType) → frac_of kind ≡ frac → IsConverted (operation_of call.now)
        (numbers from.place) kind (numbers result.place)) result }
{
    convert(plan, from, frac, call.result, call.rounding, call.saturate)
}

/// An argument converted to the result type of the call.
fn convert_argument(plan: &mut Plan, call: &OpCall, input: usize) -> Operand
    requires can { CanPlan plan.old (operation_of call.now) }
    requires inside { input < length call.now.types.now }
    requires few { length call.now.types.now ≤ 32 }
    ensures { IsMade plan.old plan.new (word_of call.now.result) (λ numbers.
        IsConverted (operation_of call.now) (numbers input) (type_of call.now.types.now input)
        (numbers result.place)) result }
{
    let frac = call.types[input].frac();
    let from = argument_of(call.types, input);
    convert_to_result(plan, call, from, frac)
}

/// A Sum.
fn plan_sum(plan: &mut Plan, call: &OpCall) -> Operand
    requires can { CanPlan plan.old (operation_of call.now) }
    requires signs { length call.now.signs.now ≡ length call.now.types.now }
    requires some { 1 ≤ length call.now.types.now }
    requires few { length call.now.types.now ≤ 32 }
    requires full { (full : FxType)
        × IsFullSum (zip call.now.signs.now call.now.types.now) full }
    ensures { IsMade plan.old plan.new (word_of call.now.result) (λ numbers.
        OfArguments call.now.types.now numbers (λ values.
        (full : FxType) × IsFullSum (zip call.now.signs.now call.now.types.now) full
        × IsConverted (operation_of call.now)
        (signed_sum (frac_of full) (zip call.now.signs.now call.now.types.now) values) full
        (numbers result.place))) result }
{
    let full = sum_type(call.signs, call.types);
    let exact = sum_arguments(plan, call.signs, call.types, full);
    convert_to_result(plan, call, exact, full.frac())
}

/// A Sum of which some inputs are given as they are and sums of the others.
pub fn plan_total(
    plan: &mut Plan,
    call: &OpCall,
    full: FxType,
    signs: &[bool],
    types: &[FxType],
) -> Operand
    requires arguments { HasArguments plan.old types.now }
    requires can { CanTotal (operation_of call.now) full signs.now types.now }
    ensures { IsPlanned plan.old plan.new None (word_of call.now.result) (λ numbers.
        OfArguments types.now numbers (λ given. GivesOfTotals (operation_of call.now) full signs.now
        types.now given (numbers result.place))) result }
{
    let frac = full.frac();
    let exact = add_up(plan, signs, types, frac, word_of(full));
    convert_to_result(plan, call, exact, frac)
}

/// What an accumulator of a type has after one argument more: the exact sum of both, converted to
/// that type.
fn plan_step(plan: &mut Plan, call: &OpCall, before: Side, negative: bool, side: Side) -> Operand
    requires before { IsAt plan.old before.from }
    requires at { IsAt plan.old side.from }
    requires accum { IsType before.kind }
    requires kind { IsType side.kind }
    requires full { (full : FxType)
        × IsFullSum ((false, before.kind) ∷ (negative, side.kind) ∷ []) full }
    ensures { IsMade plan.old plan.new (word_of before.kind) (λ numbers.
        InRange before.kind (numbers before.from.place)
        → InRange side.kind (numbers side.from.place)
        → IsStep (operation_of call.now) before.kind (negative, side.kind)
        (numbers side.from.place) (numbers before.from.place) (numbers result.place)) result }
{
    let full = sum_type(&[false, negative], &[before.kind, side.kind]);
    let (frac, word) = (full.frac(), word_of(full));
    let total = align(plan, before, frac, word);
    let exact = add_term(plan, total, negative, side, frac, word);
    convert(plan, exact, frac, before.kind, call.rounding, call.saturate)
}

/// A Sum that is added up in a type.
fn plan_accumulated(plan: &mut Plan, call: &OpCall, accum: FxType) -> Operand
    requires can { CanPlan plan.old (operation_of call.now) }
    requires is_sum { call.now.op ≡ Sum (Some accum) }
    ensures { IsMade plan.old plan.new (word_of call.now.result) (λ numbers.
        OfArguments call.now.types.now numbers (λ values.
        OpGives (operation_of call.now) values (numbers result.place))) result }
{
    let mut total = constant(plan, 0, word_of(accum));
    for input in 0..call.types.len() {
        let before = Side {
            kind: accum,
            from: total,
        };
        let side = side_of(call.types, input);
        total = plan_step(plan, call, before, call.signs[input], side);
    }
    convert_to_result(plan, call, total, accum.frac())
}

/// The word of a product.
fn product_word(one: FxType, other: FxType) -> Word
    requires one { IsType one }
    requires other { IsType other }
    requires full { (full : FxType) × IsFullProduct one other full }
    ensures { (full : FxType) → IsFullProduct one other full → result ≡ word_of full }
{
    Word {
        signed: one.is_signed() | other.is_signed(),
        width: one.width() + other.width(),
    }
}

/// The product of two numbers, converted to the result type of the call.
fn convert_product(plan: &mut Plan, call: &OpCall, one: Side, other: Side) -> Operand
    requires one { IsAt plan.old one.from }
    requires other { IsAt plan.old other.from }
    requires left { IsType one.kind }
    requires right { IsType other.kind }
    requires result { IsType call.now.result }
    requires full { (full : FxType) × IsFullProduct one.kind other.kind full }
    ensures { IsPlanned plan.old plan.new (Some 0) (word_of call.now.result) (λ numbers.
        InRange one.kind (numbers one.from.place) → InRange other.kind (numbers other.from.place)
        → IsScaled (operation_of call.now) one.kind other.kind (numbers one.from.place)
        (numbers other.from.place) (numbers result.place)) result }
{
    let word = product_word(one.kind, other.kind);
    let exact = multiply(plan, one.from, other.from, word);
    convert_to_result(plan, call, exact, one.kind.frac() + other.kind.frac())
}

/// A Gain.
fn plan_gain(plan: &mut Plan, call: &OpCall, coefficient: i128, param: FxType) -> Operand
    requires can { CanPlan plan.old (operation_of call.now) }
    requires single { length call.now.types.now ≡ 1 }
    requires param { IsType param }
    requires coefficient { InRange param coefficient }
    requires full { (full : FxType) × IsFullProduct (type_of call.now.types.now 0) param full }
    ensures { IsPlanned plan.old plan.new (Some 1) (word_of call.now.result) (λ numbers.
        OfArguments call.now.types.now numbers (λ values.
        IsScaled (operation_of call.now) (type_of call.now.types.now 0) param
        (value_of values 0) coefficient (numbers result.place))) result }
{
    let from = put_alone(plan, NetOp::Const(coefficient), word_of(param));
    let one = side_of(call.types, 0);
    convert_product(plan, call, one, Side { kind: param, from })
}

/// A Product.
fn plan_product(plan: &mut Plan, call: &OpCall) -> Operand
    requires can { CanPlan plan.old (operation_of call.now) }
    requires two { length call.now.types.now ≡ 2 }
    requires full { (full : FxType)
        × IsFullProduct (type_of call.now.types.now 0) (type_of call.now.types.now 1) full }
    ensures { IsPlanned plan.old plan.new (Some 0) (word_of call.now.result) (λ numbers.
        OfArguments call.now.types.now numbers (λ values.
        IsScaled (operation_of call.now) (type_of call.now.types.now 0)
        (type_of call.now.types.now 1) (value_of values 0) (value_of values 1)
        (numbers result.place))) result }
{
    let one = side_of(call.types, 0);
    let other = side_of(call.types, 1);
    convert_product(plan, call, one, other)
}

/// A Switch.
fn plan_switch(plan: &mut Plan, call: &OpCall, criterion: Criterion, threshold: i128) -> Operand
    requires can { CanPlan plan.old (operation_of call.now) }
    requires three { length call.now.types.now ≡ 3 }
    requires threshold { InRange (type_of call.now.types.now 1) threshold }
    ensures { IsMade plan.old plan.new (word_of call.now.result) (λ numbers.
        OfArguments call.now.types.now numbers (λ values.
        MatchBool (meets criterion threshold (value_of values 1))
        (IsConverted (operation_of call.now) (value_of values 0) (type_of call.now.types.now 0)
        (numbers result.place))
        (IsConverted (operation_of call.now) (value_of values 2) (type_of call.now.types.now 2)
        (numbers result.place)))) result }
{
    let first = convert_argument(plan, call, 0);
    let other = convert_argument(plan, call, 2);
    let control = argument_of(call.types, 1);
    let of = Branches {
        control,
        first,
        other,
    };
    switch(plan, criterion, threshold, of)
}

/// The stored integer of an argument converted, with both fracs taken as 0.
fn plan_store(plan: &mut Plan, call: &OpCall) -> Operand
    requires can { CanPlan plan.old (operation_of call.now) }
    requires single { length call.now.types.now ≡ 1 }
    ensures { IsMade plan.old plan.new (word_of call.now.result) (λ numbers.
        Converts (numbers 0) (without_frac (type_of call.now.types.now 0))
        (without_frac call.now.result) call.now.rounding call.now.saturate
        (numbers result.place)) result }
{
    let to = without_frac(call.result);
    let from = argument_of(call.types, 0);
    convert(plan, from, 0, to, call.rounding, call.saturate)
}

/// A conversion, of the real value or of the stored integer.
fn plan_conversion(plan: &mut Plan, call: &OpCall, stored: bool) -> Operand
    requires can { CanPlan plan.old (operation_of call.now) }
    requires single { length call.now.types.now ≡ 1 }
    ensures { IsMade plan.old plan.new (word_of call.now.result) (λ numbers.
        OfArguments call.now.types.now numbers (λ values.
        Gives (Convert stored) (operation_of call.now) call.now.types.now values
        (numbers result.place))) result }
{
    if stored {
        return plan_store(plan, call);
    }
    convert_argument(plan, call, 0)
}

/// The steps of an operation behind its arguments, and the one that has its result.
pub fn plan_operation(plan: &mut Plan, call: &OpCall) -> Operand
    requires { CanPlan plan.old (operation_of call.now) }
    ensures { IsPlanned plan.old plan.new (multiply_of call.now.op)
        (word_of call.now.result) (λ numbers. OfArguments call.now.types.now numbers (λ values.
        OpGives (operation_of call.now) values (numbers result.place))) result }
{
    match call.op {
        Op::Sum { accum: None } => plan_sum(plan, call),
        Op::Sum { accum: Some(accum) } => plan_accumulated(plan, call, accum),
        Op::Gain { coefficient, param } => plan_gain(plan, call, coefficient, param),
        Op::Product => plan_product(plan, call),
        Op::Switch {
            criterion,
            threshold,
        } => plan_switch(plan, call, criterion, threshold),
        Op::Relational { operator } => compare_arguments(plan, operator, call.types),
        Op::Logic { operator } => gate(plan, operator, call.types),
        Op::Convert { stored } => plan_conversion(plan, call, stored),
        Op::Pass => argument_of(call.types, 0),
    }
}
