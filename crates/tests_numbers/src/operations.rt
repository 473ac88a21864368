//! Elementwise operations, of one, two or three inputs.
ghost use Rattle.std.specs.Prelude.{[], ◌∷◌, IfOk};
ghost use Rattle.fx_type.specs.FxType.{IsType, InRange};
ghost use Rattle.dg_model.specs.Operation.{HasArity, HasSigns, HasParameters, HasResultType, HasFullType};

use crate::accumulated::accumulated;
use crate::nets::{Answer, operation_answer};
use crate::words::{End, Operand, read_end, read_operand, read_term, word_value};
use anyhow::{Error, Result};
use dg_model::{Criterion, Gate, Op, OpCall};
use fx_type::{FxType, Rounding, TooWide, full_product, full_sum, union};
use mdl_values::{read_gate, read_relation};
use std::alloc::Global;
use tests_rows::Row;

/// A line's operation.
#[derive(Clone, Copy)]
pub enum Operation {
    Sum,
    Accumulated,
    Gain,
    Product,
    Switch,
    Relational,
    Logic,
    Convert,
    Stored,
    Pass,
}

/// What an operation gives of the inputs that its line has.
pub fn carried_out(alloc: Global, operation: Operation, words: &mut Row<'_>) -> Result<Answer> {
    match operation {
        Operation::Sum => sum(alloc, words),
        Operation::Accumulated => accumulated(alloc, words),
        Operation::Gain => gain(alloc, words),
        Operation::Product => product(alloc, words),
        Operation::Switch => switch(alloc, words),
        Operation::Relational => relational(alloc, words),
        Operation::Logic => logic(alloc, words),
        Operation::Convert => convert(alloc, words, false),
        Operation::Stored => convert(alloc, words, true),
        Operation::Pass => pass(alloc, words),
    }
}

/// An operation of one input.
fn of_one(alloc: Global, op: Op, signs: &[bool], a: Operand, end: End) -> Result<Answer>
    requires a { IsType a.kind × InRange a.kind a.value }
    requires end_valid { IsType end.kind }
    requires arity { HasArity op 1 }
    requires signs { HasSigns op signs.now 1 }
    requires parameters { HasParameters op (a.kind ∷ []) }
    requires result_type { HasResultType op (a.kind ∷ []) end.kind }
    requires full_type { HasFullType op signs.now (a.kind ∷ []) }
{
    let call = OpCall {
        op,
        signs,
        types: &[a.kind],
        result: end.kind,
        rounding: end.rounding,
        saturate: end.saturate,
    };
    operation_answer(alloc, &call, &[a.value])
}

/// An operation of two inputs.
fn of_two(alloc: Global, op: Op, signs: &[bool], a: Operand, b: Operand, end: End) -> Result<Answer>
    requires a { IsType a.kind × InRange a.kind a.value }
    requires b { IsType b.kind × InRange b.kind b.value }
    requires end_valid { IsType end.kind }
    requires arity { HasArity op 2 }
    requires signs { HasSigns op signs.now 2 }
    requires parameters { HasParameters op (a.kind ∷ b.kind ∷ []) }
    requires result_type { HasResultType op (a.kind ∷ b.kind ∷ []) end.kind }
    requires full_type { HasFullType op signs.now (a.kind ∷ b.kind ∷ []) }
{
    let call = OpCall {
        op,
        signs,
        types: &[a.kind, b.kind],
        result: end.kind,
        rounding: end.rounding,
        saturate: end.saturate,
    };
    operation_answer(alloc, &call, &[a.value, b.value])
}

/// An operation of three inputs.
pub fn of_three(
    alloc: Global,
    op: Op,
    signs: &[bool],
    a: Operand,
    b: Operand,
    c: Operand,
    end: End,
) -> Result<Answer>
    requires a { IsType a.kind × InRange a.kind a.value }
    requires b { IsType b.kind × InRange b.kind b.value }
    requires c { IsType c.kind × InRange c.kind c.value }
    requires end_valid { IsType end.kind }
    requires arity { HasArity op 3 }
    requires signs { HasSigns op signs.now 3 }
    requires parameters { HasParameters op (a.kind ∷ b.kind ∷ c.kind ∷ []) }
    requires result_type { HasResultType op (a.kind ∷ b.kind ∷ c.kind ∷ []) end.kind }
    requires full_type { HasFullType op signs.now (a.kind ∷ b.kind ∷ c.kind ∷ []) }
{
    let call = OpCall {
        op,
        signs,
        types: &[a.kind, b.kind, c.kind],
        result: end.kind,
        rounding: end.rounding,
        saturate: end.saturate,
    };
    operation_answer(alloc, &call, &[a.value, b.value, c.value])
}

/// How a truth is stored.
const TRUTH: End = End {
    kind: FxType::Logical,
    rounding: Rounding::Floor,
    saturate: false,
};

fn sum(alloc: Global, words: &mut Row<'_>) -> Result<Answer> {
    match words.byte()? {
        1 => sum_of_one(alloc, words),
        2 => sum_of_two(alloc, words),
        3 => sum_of_three(alloc, words),
        _ => Err(Error::msg("one to three inputs")),
    }
}

fn sum_of_one(alloc: Global, words: &mut Row<'_>) -> Result<Answer> {
    let (p, a) = read_term(words)?;
    let end = read_end(words)?;
    match full_sum(&[(p, a.kind)]) {
        Ok(_full) => of_one(alloc, Op::Sum { accum: None }, &[p], a, end),
        Err(TooWide) => Err(Error::msg("too wide")),
    }
}

fn sum_of_two(alloc: Global, words: &mut Row<'_>) -> Result<Answer> {
    let (p, a) = read_term(words)?;
    let (q, b) = read_term(words)?;
    let end = read_end(words)?;
    match full_sum(&[(p, a.kind), (q, b.kind)]) {
        Ok(_full) => of_two(alloc, Op::Sum { accum: None }, &[p, q], a, b, end),
        Err(TooWide) => Err(Error::msg("too wide")),
    }
}

fn sum_of_three(alloc: Global, words: &mut Row<'_>) -> Result<Answer> {
    let (p, a) = read_term(words)?;
    let (q, b) = read_term(words)?;
    let (r, c) = read_term(words)?;
    let end = read_end(words)?;
    match full_sum(&[(p, a.kind), (q, b.kind), (r, c.kind)]) {
        Ok(_full) => of_three(alloc, Op::Sum { accum: None }, &[p, q, r], a, b, c, end),
        Err(TooWide) => Err(Error::msg("too wide")),
    }
}

fn gain(alloc: Global, words: &mut Row<'_>) -> Result<Answer> {
    let a = read_operand(words)?;
    let Operand {
        kind: param,
        value: coefficient,
    } = read_operand(words)?;
    let end = read_end(words)?;
    match full_product(a.kind, param) {
        Ok(_full) => of_one(alloc, Op::Gain { coefficient, param }, &[], a, end),
        Err(TooWide) => Err(Error::msg("too wide")),
    }
}

fn product(alloc: Global, words: &mut Row<'_>) -> Result<Answer> {
    let a = read_operand(words)?;
    let b = read_operand(words)?;
    let end = read_end(words)?;
    match full_product(a.kind, b.kind) {
        Ok(_full) => of_two(alloc, Op::Product, &[], a, b, end),
        Err(TooWide) => Err(Error::msg("too wide")),
    }
}

fn switch(alloc: Global, words: &mut Row<'_>) -> Result<Answer> {
    let a = read_operand(words)?;
    let control = read_operand(words)?;
    let c = read_operand(words)?;
    let criterion = words.one_of(&[
        (">=", Criterion::AtLeast),
        (">", Criterion::Above),
        ("~=0", Criterion::NotZero),
    ])?;
    let threshold = threshold(words, control.kind)?;
    let end = read_end(words)?;
    let op = Op::Switch {
        criterion,
        threshold,
    };
    of_three(alloc, op, &[], a, control, c, end)
}

/// A number in the range of this type.
fn threshold(words: &mut Row<'_>, kind: FxType) -> Result<i128>
    requires { IsType kind }
    ensures { IfOk result (InRange kind) }
{
    let v = words.integer()?;
    if v < kind.lowest() || v > kind.highest() {
        Err(Error::msg("threshold out of range"))
    } else {
        Ok(v)
    }
}

fn relational(alloc: Global, words: &mut Row<'_>) -> Result<Answer> {
    let a = read_operand(words)?;
    let operator = word_value(read_relation(words.next()?.as_bytes()))?;
    let b = read_operand(words)?;
    match union(a.kind, b.kind) {
        Ok(_union) => of_two(alloc, Op::Relational { operator }, &[], a, b, TRUTH),
        Err(TooWide) => Err(Error::msg("too wide")),
    }
}

fn logic(alloc: Global, words: &mut Row<'_>) -> Result<Answer> {
    let operator = word_value(read_gate(words.next()?.as_bytes()))?;
    match words.byte()? {
        1 => logic_of_one(alloc, words, operator),
        2 => logic_of_two(alloc, words, operator),
        3 => logic_of_three(alloc, words, operator),
        _ => Err(Error::msg("one to three inputs")),
    }
}

/// A gate of one input, which is a Not.
fn logic_of_one(alloc: Global, words: &mut Row<'_>, operator: Gate) -> Result<Answer> {
    let a = read_operand(words)?;
    match operator {
        Gate::Not => of_one(
            alloc,
            Op::Logic {
                operator: Gate::Not,
            },
            &[],
            a,
            TRUTH,
        ),
        _ => Err(Error::msg("two or more inputs")),
    }
}

fn logic_of_two(alloc: Global, words: &mut Row<'_>, operator: Gate) -> Result<Answer> {
    let a = read_operand(words)?;
    let b = read_operand(words)?;
    match operator {
        Gate::Not => Err(Error::msg("one input")),
        _ => of_two(alloc, Op::Logic { operator }, &[], a, b, TRUTH),
    }
}

fn logic_of_three(alloc: Global, words: &mut Row<'_>, operator: Gate) -> Result<Answer> {
    let a = read_operand(words)?;
    let b = read_operand(words)?;
    let c = read_operand(words)?;
    match operator {
        Gate::Not => Err(Error::msg("one input")),
        _ => of_three(alloc, Op::Logic { operator }, &[], a, b, c, TRUTH),
    }
}

fn convert(alloc: Global, words: &mut Row<'_>, stored: bool) -> Result<Answer> {
    let a = read_operand(words)?;
    let end = read_end(words)?;
    of_one(alloc, Op::Convert { stored }, &[], a, end)
}

fn pass(alloc: Global, words: &mut Row<'_>) -> Result<Answer> {
    let a = read_operand(words)?;
    let end = End {
        kind: a.kind,
        rounding: Rounding::Floor,
        saturate: false,
    };
    of_one(alloc, Op::Pass, &[], a, end)
}
