//! The operations of a block element, one after another, before they are nets.
ghost use Rattle.std.specs.Prelude.{◌≡◌, IfOk};
ghost use Rattle.math_num.specs.Word.{IsWord, InWord};
ghost use Rattle.fx_type.specs.declared.kind.FxType.{FxType};
ghost use Rattle.hw_net.specs.declared.netlist.NetOp.TheVariants.{Multiply};
ghost use Rattle.math_num.specs.Bits.{low_bits};
ghost use Rattle.hw_lower.specs.inner.PlanSteps.{IsAt, IsPlain, IsPut, IsMade, CanRead, word_of};
ghost use Rattle.hw_lower.specs.inner.PlanSteps.{IsChosen, IsGiven, step_of};
ghost use Rattle.std.specs.Prelude.{ℕ, ℤ, pos, false, ◌+◌, ◌-◌, ◌/◌, ◌^◌, ◌<◌, ◌≤◌};

use fx_io::{OutOfMemory, Sequence};
use fx_type::FxType;
use hw_net::NetOp;

/// The word of a number (own).
#[derive(Clone, Copy, PartialEq, Eq)]
pub struct Word {
    pub signed: bool,
    pub width: u8,
}

/// One operation on steps before it (own). It looks at as many of the three as it has arguments.
#[derive(Clone, Copy)]
pub struct Step {
    pub op: NetOp,
    pub first: u32,
    pub second: u32,
    pub third: u32,
    pub word: Word,
}

/// Steps by place, from 0, and whether memory was wanting for some of them. The first are the
/// arguments, as inputs.
#[derive(Drop)]
pub struct Plan {
    pub steps: Sequence<Step>,
    pub wanting: bool,
}

/// A step that others read: its place, and the word of its number.
#[derive(Clone, Copy)]
pub struct Operand {
    pub place: u32,
    pub word: Word,
}

/// The word of a type.
pub fn word_of(kind: FxType) -> Word
    ensures { result ≡ word_of kind }
{
    Word {
        signed: kind.is_signed(),
        width: kind.width(),
    }
}

/// The steps, if memory was there for all of them.
pub fn finish(plan: Plan) -> Result<Sequence<Step>, OutOfMemory>
    ensures { IfOk result (λ steps. (plan.wanting ≡ false) × (steps ≡ plan.steps)) }
{
    let Plan { steps, wanting } = plan;
    // allocation: the steps', at the one where it first failed
    if wanting { Err(OutOfMemory) } else { Ok(steps) }
}

/// Puts a step behind the others.
fn put(plan: &mut Plan, step: Step) -> Operand
    ensures { IsPut plan.old plan.new step result }
{
    let word = step.word;
    let Ok(place) = u32::try_from(plan.steps.as_slice().len()) else {
        // word: the place of a step, of 32 bits
        plan.wanting = true;
        return Operand { place: 0, word };
    };
    if let Err(_wanting) = plan.steps.push(step) {
        plan.wanting = true;
    }
    Operand { place, word }
}

/// An operation that reads none: an argument of the plan, or a number of a word.
pub fn put_alone(plan: &mut Plan, op: NetOp, word: Word) -> Operand
    ensures { IsPut plan.old plan.new (step_of op 0 0 0 word) result }
{
    put(
        plan,
        Step {
            op,
            first: 0,
            second: 0,
            third: 0,
            word,
        },
    )
}

/// The product of two steps, cut to a word: the one Multiply of a Product or a Gain.
pub fn multiply(plan: &mut Plan, one: Operand, other: Operand, word: Word) -> Operand
    ensures { IsPut plan.old plan.new
        (step_of Multiply one.place other.place other.place word) result }
{
    put(
        plan,
        Step {
            op: NetOp::Multiply,
            first: one.place,
            second: other.place,
            third: other.place,
            word,
        },
    )
}

/// A number of a word.
pub fn constant(plan: &mut Plan, value: i128, word: Word) -> Operand
    requires word { IsWord word.width word.signed }
    requires value { InWord word.width word.signed value }
    ensures { IsMade plan.old plan.new word (λ numbers. numbers result.place ≡ value) result }
{
    put_alone(plan, NetOp::Const(value), word)
}

/// An operation on steps, cut to a word.
pub fn operation(
    plan: &mut Plan,
    op: NetOp,
    first: Operand,
    second: Operand,
    third: Operand,
    word: Word,
) -> Operand
    requires plain { IsPlain op }
    requires parts { CanRead op first.word.width }
    requires first { IsAt plan.old first }
    requires second { IsAt plan.old second }
    requires third { IsAt plan.old third }
    requires word { IsWord word.width word.signed }
    ensures { IsGiven plan.old plan.new op first second third word result }
{
    put(
        plan,
        Step {
            op,
            first: first.place,
            second: second.place,
            third: third.place,
            word,
        },
    )
}

/// An operation on one step.
pub fn unary(plan: &mut Plan, op: NetOp, one: Operand, word: Word) -> Operand
    requires plain { IsPlain op }
    requires parts { CanRead op one.word.width }
    requires at { IsAt plan.old one }
    requires word { IsWord word.width word.signed }
    ensures { IsGiven plan.old plan.new op one one one word result }
{
    operation(plan, op, one, one, one, word)
}

/// An operation on two steps.
pub fn binary(plan: &mut Plan, op: NetOp, one: Operand, other: Operand, word: Word) -> Operand
    requires plain { IsPlain op }
    requires parts { CanRead op one.word.width }
    requires one { IsAt plan.old one }
    requires other { IsAt plan.old other }
    requires word { IsWord word.width word.signed }
    ensures { IsGiven plan.old plan.new op one other other word result }
{
    operation(plan, op, one, other, other, word)
}

/// Bits of a step, as an unsigned number.
pub fn slice(plan: &mut Plan, from: Operand, high: u8, low: u8, word: Word) -> Operand
    requires at { IsAt plan.old from }
    requires order { low ≤ high }
    requires within { high < from.word.width }
    requires unsigned { word.signed ≡ false }
    requires wide { word.width ≡ high - low + 1 }
    requires word { IsWord word.width word.signed }
    ensures { IsMade plan.old plan.new word (λ numbers.
        numbers result.place ≡ pos (low_bits (high + 1) (numbers from.place) / 2 ^ low)) result }
{
    unary(plan, NetOp::Slice { high, low }, from, word)
}

/// The second step where the first isn't 0, else the third, all of them in the word.
pub fn choose(
    plan: &mut Plan,
    test: Operand,
    chosen: Operand,
    other: Operand,
    word: Word,
) -> Operand
    requires test { IsAt plan.old test }
    requires chosen { IsAt plan.old chosen }
    requires other { IsAt plan.old other }
    requires word { chosen.word ≡ word }
    requires fits { (numbers : ℕ → ℤ) → numbers test.place ≡ pos 0
        → InWord other.word.width other.word.signed (numbers other.place)
        → InWord word.width word.signed (numbers other.place) }
    ensures { IsMade plan.old plan.new word (λ numbers. IsChosen
        (numbers test.place) (numbers chosen.place) (numbers other.place) (numbers result.place))
        result }
{
    operation(plan, NetOp::Choose, test, chosen, other, word)
}
