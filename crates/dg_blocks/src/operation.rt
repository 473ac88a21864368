//! The result of an operation.
ghost use Rattle.std.specs.Prelude.{◌≡◌, ◌*ℤ◌};
ghost use Rattle.fx_type.specs.declared.kind.FxType.{FxType};
ghost use Rattle.fx_type.specs.FxType.{IsType, InRange};
ghost use Rattle.std.specs.Prelude.{◌∷◌, [], false, None, Some};
ghost use Rattle.fx_type.specs.FullType.{IsFullProduct, IsFullSum};
ghost use Rattle.fx_type.specs.Conversion.{Converts};
ghost use Rattle.dg_model.specs.Operation.{operation_of, without_frac, IsConverted, IsStep, CanCarryOut, OpGives};

use crate::conditions::{compares_values, gate, meets};
use crate::exact::{exact_conversion, greatest_frac, product, product_frac, signed_sum};
use crate::laws::operation_gives_one;
use dg_model::{Op, OpCall, without_frac};
use fx_type::FxType;

/// What the operation gives of these inputs: the exact sum or product converted to the result type,
/// an input that a Switch takes, or a truth as 0 or 1. Source: Simulink reference, Sum, Gain, Product,
/// Switch, Relational Operator, Logical Operator, Data Type Conversion.
pub fn output(call: &OpCall, inputs: &[i128]) -> i128
    requires { CanCarryOut (operation_of call.now) inputs.now }
    ensures { OpGives (operation_of call.now) inputs.now result }
{
    match call.op {
        Op::Sum { accum: None } => sum(call, inputs),
        Op::Sum { accum: Some(accum) } => accumulated(call, accum, inputs),
        Op::Gain { coefficient, param } => {
            times(call, call.types[0], param, inputs[0], coefficient)
        }
        Op::Product => times(call, call.types[0], call.types[1], inputs[0], inputs[1]),
        Op::Switch {
            criterion,
            threshold,
        } => {
            if meets(criterion, threshold, inputs[1]) {
                conversion(call, inputs[0], call.types[0])
            } else {
                conversion(call, inputs[2], call.types[2])
            }
        }
        Op::Relational { operator } => {
            let (a, b) = (call.types[0], call.types[1]);
            i128::from(compares_values(operator, a, b, inputs[0], inputs[1]))
        }
        Op::Logic { operator } => i128::from(gate(operator, inputs)),
        Op::Convert { stored: false } => conversion(call, inputs[0], call.types[0]),
        Op::Convert { stored: true } => stored_converted(call, inputs[0], call.types[0]),
        Op::Pass => inputs[0],
    }
}

/// A Sum.
fn sum(call: &OpCall, inputs: &[i128]) -> i128
    requires can { CanCarryOut (operation_of call.now) inputs.now }
    requires is_sum { call.now.op ≡ Op.Sum None }
    ensures { OpGives (operation_of call.now) inputs.now result }
{
    let frac = greatest_frac(call.types);
    let exact = signed_sum(call.signs, call.types, inputs, frac);
    exact_conversion(call, exact, frac)
}

/// What an accumulator of a type has after one input more: the exact sum, converted to that type.
fn step(call: &OpCall, accum: FxType, before: i128, negative: bool, kind: FxType, v: i128) -> i128
    requires accum { IsType accum }
    requires kind { IsType kind }
    requires before { InRange accum before }
    requires in_range { InRange kind v }
    requires full { (full : FxType)
        × IsFullSum ((false, accum) ∷ (negative, kind) ∷ []) full }
    ensures step { IsStep (operation_of call.now) accum (negative, kind) v before result }
    ensures range { InRange accum result }
{
    operation_gives_one();
    let one = OpCall {
        op: Op::Sum { accum: None },
        signs: &[false, negative],
        types: &[accum, kind],
        result: accum,
        rounding: call.rounding,
        saturate: call.saturate,
    };
    sum(&one, &[before, v])
}

/// A Sum that is added up in a type.
fn accumulated(call: &OpCall, accum: FxType, inputs: &[i128]) -> i128
    requires can { CanCarryOut (operation_of call.now) inputs.now }
    requires is_sum { call.now.op ≡ Op.Sum (Some accum) }
    ensures { OpGives (operation_of call.now) inputs.now result }
{
    let mut total = 0;
    for (input, v) in inputs.iter().enumerate() {
        total = step(call, accum, total, call.signs[input], call.types[input], *v);
    }
    conversion(call, total, accum)
}

/// A Product or a Gain of two stored integers.
fn times(call: &OpCall, a: FxType, b: FxType, x: i128, y: i128) -> i128
    requires left { IsType a }
    requires right { IsType b }
    requires x_in_range { InRange a x }
    requires y_in_range { InRange b y }
    requires full { (full : FxType) × IsFullProduct a b full }
    requires result { IsType call.now.result }
    ensures { (full : FxType) × IsFullProduct a b full
        × IsConverted (operation_of call.now) (x *ℤ y) full result }
{
    exact_conversion(call, product(a, b, x, y), product_frac(a, b))
}

/// A stored integer converted to the result type of the call.
fn conversion(call: &OpCall, v: i128, from: FxType) -> i128
    requires from { IsType from }
    requires in_range { InRange from v }
    requires result { IsType call.now.result }
    ensures { IsConverted (operation_of call.now) v from result }
{
    fx_round::convert(v, from, call.result, call.rounding, call.saturate)
}

/// A stored integer converted with both fracs taken as 0.
fn stored_converted(call: &OpCall, v: i128, from: FxType) -> i128
    requires from { IsType from }
    requires in_range { InRange from v }
    requires result { IsType call.now.result }
    ensures { Converts v (without_frac from)
        (without_frac call.now.result) call.now.rounding call.now.saturate result }
{
    let to = without_frac(call.result);
    fx_round::convert(v, without_frac(from), to, call.rounding, call.saturate)
}
