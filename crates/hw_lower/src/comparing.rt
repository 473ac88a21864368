//! Comparisons and criteria.
ghost use Rattle.std.specs.Prelude.{◌≡◌, Bool, not};
ghost use Rattle.dg_model.specs.Operation.{compares, meets, stored_truth};
ghost use Rattle.math_num.specs.Bits.{truth};
ghost use Rattle.hw_lower.specs.inner.PlanSteps.{IsAt, IsMade, IsPlain, CanRead, IsSwitched};
ghost use Rattle.hw_lower.specs.inner.PlanSteps.{bit_word, of_two};
ghost use Rattle.hw_lower.specs.inner.Spread.{CanSwitch};

use crate::bits::{bit_word, inverse};
use crate::plan::{Operand, Plan, binary, choose, constant};
use dg_model::{Criterion, Relation};
use hw_net::NetOp;

/// A control, and the two numbers of one word between which it chooses.
#[derive(Clone, Copy)]
pub struct Branches {
    pub control: Operand,
    pub first: Operand,
    pub other: Operand,
}

/// The opposite of what an operation on two steps tells in one bit.
fn opposite(plan: &mut Plan, op: NetOp, one: Operand, other: Operand) -> Operand
    requires plain { IsPlain op }
    requires parts { CanRead op one.word.width }
    requires one { IsAt plan.old one }
    requires other { IsAt plan.old other }
    ensures { IsMade plan.old plan.new bit_word (λ numbers. (told : Bool)
        → of_two op numbers one other ≡ truth told
        → numbers result.place ≡ stored_truth (not told)) result }
{
    let bit = binary(plan, op, one, other, bit_word());
    inverse(plan, bit)
}

/// Whether two numbers in one unit are so related.
pub fn compare(plan: &mut Plan, operator: Relation, one: Operand, other: Operand) -> Operand
    requires one { IsAt plan.old one }
    requires other { IsAt plan.old other }
    ensures { IsMade plan.old plan.new bit_word (λ numbers. numbers result.place
        ≡ stored_truth (compares operator (numbers one.place) (numbers other.place))) result }
{
    match operator {
        Relation::Eq => binary(plan, NetOp::Equal, one, other, bit_word()),
        Relation::Ne => opposite(plan, NetOp::Equal, one, other),
        Relation::Lt => binary(plan, NetOp::Less, one, other, bit_word()),
        Relation::Le => opposite(plan, NetOp::Less, other, one),
        Relation::Ge => opposite(plan, NetOp::Less, one, other),
        Relation::Gt => binary(plan, NetOp::Less, other, one, bit_word()),
    }
}

/// The first number where the criterion holds of the control, else the other.
pub fn switch(plan: &mut Plan, criterion: Criterion, threshold: i128, of: Branches) -> Operand
    requires { CanSwitch plan.old of threshold }
    ensures { IsMade plan.old plan.new of.first.word (λ numbers.
        IsSwitched (meets criterion threshold (numbers of.control.place)) (numbers of.first.place)
        (numbers of.other.place) (numbers result.place)) result }
{
    match criterion {
        Criterion::AtLeast => against(plan, Relation::Ge, threshold, of),
        Criterion::Above => against(plan, Relation::Gt, threshold, of),
        Criterion::NotZero => choose(plan, of.control, of.first, of.other, of.first.word),
    }
}

/// The first number where the control is so related to the threshold, else the other.
fn against(plan: &mut Plan, operator: Relation, threshold: i128, of: Branches) -> Operand
    requires { CanSwitch plan.old of threshold }
    ensures { IsMade plan.old plan.new of.first.word (λ numbers.
        IsSwitched (compares operator (numbers of.control.place) threshold)
        (numbers of.first.place) (numbers of.other.place) (numbers result.place)) result }
{
    let bound = constant(plan, threshold, of.control.word);
    let test = compare(plan, operator, of.control, bound);
    choose(plan, test, of.first, of.other, of.first.word)
}
