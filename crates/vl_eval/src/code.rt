ghost use Rattle.std.specs.Prelude.{◌≡◌, ◌<◌, ◌++◌, ◌∷◌, ◌+◌, [], OnOk, length, slice_index, slice_index_or, take};
ghost use Rattle.vl_eval.specs.declared.ops.Op.{Op};
ghost use Rattle.vl_eval.specs.inner.Ops.{AreSettled, IsOrdered, IsSettled, op_value, reads_below};
ghost use Rattle.vl_eval.specs.inner.Steps.{AreConstants, AreWithin, IsWithin, is_constant, op_in, ops_of};

use crate::ops::{OneOp, Op, Register, TwoOp, value_of};
use crate::steps::{Pair, Step, narrow};
use crate::sweeping::sweep;
use fx_io::OutOfMemory;
use std::alloc::Global;
use std::marker::Model;

/// Operations in order (own). Contracts see the list of them. Nearly all are held as steps, of 24 bytes
/// each; one that no step can hold has 64 more.
#[derive(Drop)]
pub struct Code {
    steps: Vec<Step>,
    /// What no step can hold, by the numbers of `Step::Whole`.
    wide: Vec<Op>,
}

impl Model for Code {
    ghost use Rattle.std.specs.Prelude.{List, length};
    ghost use Rattle.vl_eval.specs.declared.ops.Op.{Op};
    ghost use Rattle.vl_eval.specs.inner.Steps.{AreWithin, ops_of};

    ghost Value = { List Op };

    ghost view = { λ code. ops_of code.wide.items code.steps.items };

    ghost invariant = { λ code. AreWithin (length code.wide.items) code.steps.items };
}

/// An operation on the words at two places.
fn two(op: TwoOp, pair: Pair) -> Op
    ensures { result ≡ Op.Two op pair.left pair.right }
{
    Op::Two(op, pair.left as usize, pair.right as usize)
}

/// The operation of a step.
fn op_in(step: Step, wide: &[Op]) -> Op
    requires { IsWithin (length wide.now) step }
    ensures { result ≡ op_in wide.now step }
{
    match step {
        Step::Constant(bits) => Op::Constant(bits as u128),
        Step::Extended { part, half, fill } => {
            let (half, fill) = (half as u128, fill as u128);
            Op::One(OneOp::Extended { half, fill }, part as usize)
        }
        Step::Select { part, low, mask } => {
            let mask = mask as u128;
            Op::One(OneOp::Select { low, mask }, part as usize)
        }
        Step::Add(pair, mask) => two(TwoOp::Add(mask as u128), pair),
        Step::Subtract(pair, mask) => two(TwoOp::Subtract(mask as u128), pair),
        Step::Multiply(pair, mask) => two(TwoOp::Multiply(mask as u128), pair),
        Step::And(pair) => two(TwoOp::And, pair),
        Step::Or(pair) => two(TwoOp::Or, pair),
        Step::Xor(pair) => two(TwoOp::Xor, pair),
        Step::Equal(pair) => two(TwoOp::Equal, pair),
        Step::NotEqual(pair) => two(TwoOp::NotEqual, pair),
        Step::Less(pair, half) => two(TwoOp::Less(half as u128), pair),
        Step::LessEqual(pair, half) => two(TwoOp::LessEqual(half as u128), pair),
        Step::Both(pair) => two(TwoOp::Both, pair),
        Step::Either(pair) => two(TwoOp::Either, pair),
        Step::Negate { part, mask } => Op::One(OneOp::Negate(mask as u128), part as usize),
        Step::Invert { part, mask } => Op::One(OneOp::Invert(mask as u128), part as usize),
        Step::IsZero { part } => Op::One(OneOp::IsZero, part as usize),
        Step::Up { part, places, mask } => {
            let mask = mask as u128;
            Op::One(OneOp::Up { places, mask }, part as usize)
        }
        Step::SignedDown {
            places,
            part,
            half,
            mask,
        } => {
            let (places, half, mask) = (places as u32, half as u128, mask as u128);
            Op::One(OneOp::SignedDown { places, half, mask }, part as usize)
        }
        Step::Choose {
            test,
            chosen,
            other,
        } => Op::Choose {
            test: test as usize,
            chosen: chosen as usize,
            other: other as usize,
        },
        Step::Beside(pair, places) => Op::Beside {
            left: pair.left as usize,
            right: pair.right as usize,
            places,
        },
        Step::Next(register) => Op::Next(Register {
            reset: register.reset as usize,
            first: register.first as u128,
            test: register.test as usize,
            value: register.value as usize,
            kept: register.kept as usize,
        }),
        Step::Whole(number) => wide[number],
    }
}

/// Adds the step of an operation, and the operation itself where no step can hold it.
fn append(steps: &mut Vec<Step>, wide: &mut Vec<Op>, op: Op) -> Result<(), OutOfMemory>
    requires { AreWithin (length wide.old.items) steps.old.items }
    ensures within { AreWithin (length wide.new.items) steps.new.items }
    ensures grown { OnOk result (ops_of wide.new.items steps.new.items
        ≡ ops_of wide.old.items steps.old.items ++ op ∷ []) }
{
    if let Some(step) = narrow(op) {
        steps.push(step)?;
        return Ok(());
    }
    let number = wide.len();
    wide.push(op)?;
    steps.push(Step::Whole(number))?;
    Ok(())
}

impl Code {
    /// No operation. It takes no memory.
    pub fn new(alloc: Global) -> Code
        ensures { result ≡ [] }
    {
        Code {
            steps: Vec::new(alloc),
            wide: Vec::new(alloc),
        }
    }

    /// How many operations there are.
    pub fn len(&self) -> usize
        ensures { result ≡ length self.now }
    {
        self.steps.len()
    }

    /// The operation at a place.
    pub fn get(&self, place: usize) -> Op
        requires { place < length self.now }
        ensures { result ≡ slice_index_or self.now place (Op.Constant 0) }
    {
        op_in(self.steps[place], self.wide.as_slice())
    }

    /// What an operation gives. It is worked out by its long form, so that `sweep` alone has that of steps
    /// within itself.
    pub fn value(&self, place: usize, values: &[u128]) -> u128
        requires within { place < length self.now }
        requires reads { reads_below (slice_index_or self.now place (Op.Constant 0))
            (length values.now) }
        ensures { result ≡ op_value (slice_index_or self.now place (Op.Constant 0))
            (λ k. slice_index values.now k) }
    {
        value_of(self.get(place), values)
    }

    /// Works out the operations from the number `from` on in one sweep, each into its place after the
    /// first `base` values. Those before have their values.
    pub fn sweep(&self, base: usize, from: usize, values: &mut [u128])
        requires room { length values.now ≡ base + length self.now }
        requires ordered { IsOrdered base self.now }
        requires begun { AreSettled base from self.now values.now }
        ensures settled { IsSettled base self.now (λ k. slice_index values.new k) }
        ensures kept { take base values.new ≡ take base values.old }
        ensures long { length values.new ≡ length values.old }
    {
        sweep(
            self.steps.as_slice(),
            self.wide.as_slice(),
            base,
            from,
            values,
        );
    }

    /// Puts an operation at the end.
    pub fn push(&mut self, op: Op) -> Result<(), OutOfMemory>
        ensures { OnOk result (self.new ≡ self.old ++ op ∷ []) }
    {
        append(&mut self.steps, &mut self.wide, op)
    }
}

fn is_constant(op: Op) -> bool
    ensures { result ≡ is_constant op }
{
    matches!(op, Op::Constant(_))
}

/// How many constants stand first. An edge leaves them as they are.
pub fn constants(ops: &Code) -> usize
    ensures { AreConstants result ops.now }
{
    for number in 0..ops.len() {
        if !is_constant(ops.get(number)) {
            return number;
        }
    }
    ops.len()
}
