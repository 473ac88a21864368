//! Gates over the truth of the arguments.
ghost use Rattle.std.specs.Prelude.{◌≡◌, not};
ghost use Rattle.dg_model.specs.Operation.{gate_of, stored_truth};
ghost use Rattle.hw_lower.specs.inner.PlanSteps.{IsAt, IsMade, bit_word};
ghost use Rattle.hw_lower.specs.inner.Spread.{HasSome, OfArguments, IsJoined, truth_of};

use crate::aligning::argument_of;
use crate::bits::{bit_word, both, inverse, truth};
use crate::plan::{Operand, Plan, choose};
use dg_model::Gate;
use fx_type::FxType;

/// How the truths of arguments are joined (own).
#[derive(Clone, Copy)]
pub enum Joining {
    /// Whether all are other than 0.
    Every,
    /// Whether some is other than 0.
    Any,
    /// Whether an odd count is other than 0.
    Odd,
}

/// Joins the truth of one number more.
fn join(plan: &mut Plan, joining: Joining, test: Operand, bit: Operand) -> Operand
    requires test { IsAt plan.old test }
    requires bit { IsAt plan.old bit }
    requires word { bit.word ≡ bit_word }
    ensures { IsMade plan.old plan.new bit_word (λ numbers.
        IsJoined joining (numbers test.place) (numbers bit.place) (numbers result.place)) result }
{
    match joining {
        Joining::Every => both(plan, test, bit),
        Joining::Any => {
            let one = truth(plan, test);
            choose(plan, test, one, bit, bit_word())
        }
        Joining::Odd => {
            let other = inverse(plan, bit);
            choose(plan, test, other, bit, bit_word())
        }
    }
}

/// The truths of all arguments, joined.
fn join_all(plan: &mut Plan, joining: Joining, types: &[FxType]) -> Operand
    requires { HasSome plan.old types.now }
    ensures { IsMade plan.old plan.new bit_word (λ numbers.
        OfArguments types.now numbers (λ values.
        numbers result.place ≡ stored_truth (truth_of joining values))) result }
{
    let from = argument_of(types, 0);
    let first = truth(plan, from);
    let mut bit = first;
    for input in 1..types.len() {
        let one = argument_of(types, input);
        bit = join(plan, joining, one, bit);
    }
    bit
}

/// The inverse of the same.
fn join_inverted(plan: &mut Plan, joining: Joining, types: &[FxType]) -> Operand
    requires { HasSome plan.old types.now }
    ensures { IsMade plan.old plan.new bit_word (λ numbers.
        OfArguments types.now numbers (λ values.
        numbers result.place ≡ stored_truth (not (truth_of joining values)))) result }
{
    let bit = join_all(plan, joining, types);
    inverse(plan, bit)
}

/// The gate over the truth of the arguments, of which there is one.
pub fn gate(plan: &mut Plan, operator: Gate, types: &[FxType]) -> Operand
    requires { HasSome plan.old types.now }
    ensures { IsMade plan.old plan.new bit_word (λ numbers.
        OfArguments types.now numbers (λ values.
        numbers result.place ≡ stored_truth (gate_of operator values))) result }
{
    match operator {
        Gate::And => join_all(plan, Joining::Every, types),
        Gate::Or => join_all(plan, Joining::Any, types),
        Gate::Nand => join_inverted(plan, Joining::Every, types),
        Gate::Nor => join_inverted(plan, Joining::Any, types),
        Gate::Not => join_inverted(plan, Joining::Any, types),
        Gate::Xor => join_all(plan, Joining::Odd, types),
        Gate::Nxor => join_inverted(plan, Joining::Odd, types),
    }
}
