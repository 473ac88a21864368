//! Operations in steps of 64 bits.
ghost use Rattle.std.specs.Prelude.{◌≡◌, length, cond};
ghost use Rattle.dg_model.specs.Operation.{operation_of, CanCarryOut, OpGives, meets as meets_of, value_of};
ghost use Rattle.dg_blocks.specs.declared.prepared.Prepared.TheVariants.{Summed, Chosen};
ghost use Rattle.dg_blocks.specs.Prepared.{IsPrepared};

use crate::conditions::meets;
use crate::narrow::{Narrow, short};
use crate::operation::output;
use crate::short_sums::signed_sum;
use dg_model::{Criterion, Op, OpCall};

/// A Sum.
pub fn sum(call: &OpCall, inputs: &[i128], frac: i16, narrow: Narrow) -> i128
    requires prepared { IsPrepared (Summed frac narrow) (operation_of call.now) }
    requires can { CanCarryOut (operation_of call.now) inputs.now }
    ensures { OpGives (operation_of call.now) inputs.now result }
{
    let total = signed_sum(call.signs, call.types, inputs, frac);
    i128::from(narrow.convert(total))
}

/// The input that a Switch takes.
fn switch_input(criterion: Criterion, threshold: i128, inputs: &[i128]) -> i128
    requires { length inputs.now ≡ 3 }
    ensures { result ≡ cond (meets_of criterion threshold (value_of inputs.now 1))
        (value_of inputs.now 0) (value_of inputs.now 2) }
{
    if meets(criterion, threshold, inputs[1]) {
        inputs[0]
    } else {
        inputs[2]
    }
}

/// A Switch.
pub fn switch(call: &OpCall, inputs: &[i128], narrow: Narrow) -> i128
    requires prepared { IsPrepared (Chosen narrow) (operation_of call.now) }
    requires can { CanCarryOut (operation_of call.now) inputs.now }
    ensures { OpGives (operation_of call.now) inputs.now result }
{
    let Op::Switch {
        criterion,
        threshold,
    } = call.op
    else {
        return output(call, inputs);
    };
    let v = short(switch_input(criterion, threshold, inputs));
    i128::from(narrow.convert(v))
}
