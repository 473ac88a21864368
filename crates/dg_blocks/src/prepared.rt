//! Operations with everything worked out that depends on types alone.
ghost use Rattle.std.specs.Prelude.{IfSome};
ghost use Rattle.dg_model.specs.Operation.{Operation, operation_of, CanPrepare, CanCarryOut, OpGives};
ghost use Rattle.dg_blocks.specs.Prepared.{IsPrepared};

use crate::carrying::{sum, switch};
use crate::narrow::Narrow;
use crate::operation::output;
use crate::preparing::{
    prepared_conversion, prepared_gain, prepared_product, prepared_sum, prepared_switch,
};
use dg_model::{Op, OpCall};

/// How an operation is carried out (own).
#[derive(Clone, Copy)]
pub enum Prepared {
    /// In 128 bits.
    Wide,
    /// One conversion in 64 bits.
    Converted(Narrow),
    /// A product in 64 bits, and its conversion.
    Times(Narrow),
    /// A product with a constant in 64 bits, and its conversion.
    Scaled(i64, Narrow),
    /// A sum in 64 bits with so many bits behind the point, and its conversion.
    Summed(i16, Narrow),
    /// The conversion in 64 bits of the input that a Switch takes.
    Chosen(Narrow),
}

impl Prepared {
    /// What the types of an operation allow.
    pub fn new(call: &OpCall) -> Prepared
        requires { CanPrepare (operation_of call.now) }
        ensures { IsPrepared result (operation_of call.now) }
    {
        match call.op {
            Op::Sum { accum: None } => prepared_sum(call),
            Op::Gain { coefficient, param } => prepared_gain(call, coefficient, param),
            Op::Product => prepared_product(call),
            Op::Switch { .. } => prepared_switch(call),
            Op::Convert { stored: false } => prepared_conversion(call),
            Op::Sum { accum: Some(_) }
            | Op::Convert { stored: true }
            | Op::Relational { .. }
            | Op::Logic { .. }
            | Op::Pass => Prepared::Wide,
        }
    }

    /// What an operation for which this was prepared gives of these inputs, where nothing of its call
    /// is needed for it.
    #[inline(always)]
    pub fn alone(&self, inputs: &[i128]) -> Option<i128>
        requires { (operation : Operation) × IsPrepared self.now operation
            × CanCarryOut operation inputs.now }
        ensures { (operation : Operation) → IsPrepared self.now operation
            → CanCarryOut operation inputs.now
            → IfSome result (λ value. OpGives operation inputs.now value) }
    {
        match *self {
            Prepared::Converted(narrow) => { Some(i128::from(narrow.convert(inputs[0] as i64))) }
            Prepared::Times(narrow) => {
                let product = (inputs[0] as i64) * (inputs[1] as i64);
                Some(i128::from(narrow.convert(product)))
            }
            Prepared::Scaled(coefficient, narrow) => {
                let scaled = (inputs[0] as i64) * coefficient;
                Some(i128::from(narrow.convert(scaled)))
            }
            Prepared::Wide | Prepared::Summed(..) | Prepared::Chosen(_) => None,
        }
    }

    /// What the operation gives of these inputs.
    pub fn output(&self, call: &OpCall, inputs: &[i128]) -> i128
        requires prepared { IsPrepared self.now (operation_of call.now) }
        requires can { CanCarryOut (operation_of call.now) inputs.now }
        ensures { OpGives (operation_of call.now) inputs.now result }
    {
        if let Some(value) = self.alone(inputs) {
            return value;
        }
        match *self {
            Prepared::Summed(frac, narrow) => sum(call, inputs, frac, narrow),
            Prepared::Chosen(narrow) => switch(call, inputs, narrow),
            Prepared::Wide | Prepared::Converted(_) | Prepared::Times(_) | Prepared::Scaled(..) =>
                output(call, inputs),
        }
    }
}
