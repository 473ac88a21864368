//! A whole number put into a word, and conversions between types.
ghost use Rattle.std.specs.Prelude.{◌≡◌, ◌≤◌, ◌<◌, ◌^◌, ◌↔◌, ◌↔◌, ℤ, pos, negsuc, ◌*ℤ◌, ◌≤ℤ◌};
ghost use Rattle.math_num.specs.Word.{IsWord, IsWrapped, word_lowest, word_highest};
ghost use Rattle.fx_type.specs.declared.kind.FxType.{FxType};
ghost use Rattle.fx_type.specs.declared.kind.FxType.TheVariants.{Num};
ghost use Rattle.fx_type.specs.FxType.{IsType, frac_of};
ghost use Rattle.fx_type.specs.Conversion.{Settles, StoresQuotient, Converts};
ghost use Rattle.hw_lower.specs.inner.PlanSteps.{CanHold, HoldsAbove, HoldsBelow, IsAt, IsChosen, IsMade, word_of};

use crate::bits::{bit_word, truth};
use crate::plan::{Operand, Plan, Word, binary, choose, constant, unary, word_of};
use crate::rounding::round;
use fx_num::{highest, lowest};
use fx_type::{FxType, Rounding};
use hw_net::NetOp;

/// The number times 2 to the power `up`, cut to the word.
pub fn shift(plan: &mut Plan, from: Operand, up: u8, word: Word) -> Operand
    requires at { IsAt plan.old from }
    requires word { IsWord word.width word.signed }
    ensures { IsMade plan.old plan.new word (λ numbers.
        IsWrapped (numbers from.place *ℤ pos (2 ^ up)) word.width word.signed
        (numbers result.place)) result }
{
    if up > 0 {
        return unary(plan, NetOp::ShiftUp(up), from, word);
    }
    if from.word == word {
        return from;
    }
    unary(plan, NetOp::Resize, from, word)
}

/// The greatest number that is in the word after it is shifted up.
fn greatest(up: u8, word: Word) -> i128
    requires { IsWord word.width word.signed }
    ensures least { pos 0 ≤ℤ result }
    ensures bound { (v : ℤ) → ((v *ℤ pos (2 ^ up)) ≤ℤ word_highest word.width word.signed)
        ↔ (v ≤ℤ result) }
{
    if up < 127 {
        highest(word.width, word.signed) >> up
    } else {
        0
    }
}

/// The least.
fn least(up: u8, word: Word) -> i128
    requires { IsWord word.width word.signed }
    ensures most { result ≤ℤ pos 0 }
    ensures bound { (v : ℤ) → (word_lowest word.width word.signed ≤ℤ (v *ℤ pos (2 ^ up)))
        ↔ (result ≤ℤ v) }
{
    if up < word.width {
        lowest(word.width, word.signed) >> up
    } else {
        0
    }
}

/// The number where the test isn't 0, else the value.
fn choose_end(plan: &mut Plan, test: Operand, end: i128, value: Operand) -> Operand
    requires { CanHold plan.old test value end }
    ensures { IsMade plan.old plan.new value.word (λ numbers. IsChosen
        (numbers test.place) end (numbers value.place) (numbers result.place)) result }
{
    let number = constant(plan, end, value.word);
    choose(plan, test, number, value, value.word)
}

/// The greatest number of the word where the shifted number would pass it, else the given one.
fn held_below(plan: &mut Plan, from: Operand, up: u8, value: Operand) -> Operand
    requires from { IsAt plan.old from }
    requires value { IsAt plan.old value }
    ensures { HoldsBelow plan.old plan.new from up value result }
{
    let bound = greatest(up, value.word);
    if bound >= highest(from.word.width, from.word.signed) {
        return value;
    }
    let end = constant(plan, bound, from.word);
    let test = binary(plan, NetOp::Less, end, from, bit_word());
    let most = highest(value.word.width, value.word.signed);
    choose_end(plan, test, most, value)
}

/// The least number of the word where the shifted number would pass it, else the given one.
fn held_above(plan: &mut Plan, from: Operand, up: u8, value: Operand) -> Operand
    requires from { IsAt plan.old from }
    requires value { IsAt plan.old value }
    ensures { HoldsAbove plan.old plan.new from up value result }
{
    let bound = least(up, value.word);
    if bound <= lowest(from.word.width, from.word.signed) {
        return value;
    }
    let end = constant(plan, bound, from.word);
    let test = binary(plan, NetOp::Less, from, end, bit_word());
    let fewest = lowest(value.word.width, value.word.signed);
    choose_end(plan, test, fewest, value)
}

/// The number times 2 to the power `up`, put into the word: with `saturate` the nearest number of
/// it, else the congruent one. Bounds are compared before the shift.
pub fn settle(plan: &mut Plan, from: Operand, up: u8, word: Word, saturate: bool) -> Operand
    requires at { IsAt plan.old from }
    requires word { IsWord word.width word.signed }
    ensures { IsMade plan.old plan.new word (λ numbers. (frac : ℤ)
        → Settles (Num word.signed word.width frac) saturate (numbers from.place *ℤ pos (2 ^ up))
        (numbers result.place)) result }
{
    let value = shift(plan, from, up, word);
    if saturate {
        let below = held_below(plan, from, up, value);
        return held_above(plan, from, up, below);
    }
    value
}

/// The number divided by 2 to the power `by`, rounded by the mode, and put into the word.
fn settle_quotient(
    plan: &mut Plan,
    from: Operand,
    by: u8,
    word: Word,
    mode: Rounding,
    saturate: bool,
) -> Operand
    requires at { IsAt plan.old from }
    requires some { 1 ≤ by }
    requires word { IsWord word.width word.signed }
    ensures { IsMade plan.old plan.new word (λ numbers. (frac : ℤ)
        → StoresQuotient (numbers from.place) (2 ^ by) (Num word.signed word.width frac) mode
        saturate (numbers result.place)) result }
{
    let whole = round(plan, from, by, mode);
    settle(plan, whole, 0, word, saturate)
}

/// A number with `frac` bits behind the point, converted to a type.
pub fn convert(
    plan: &mut Plan,
    from: Operand,
    frac: i16,
    to: FxType,
    mode: Rounding,
    saturate: bool,
) -> Operand
    requires at { IsAt plan.old from }
    requires low { negsuc 63 ≤ℤ frac }
    requires high { frac ≤ℤ pos 128 }
    requires to { IsType to }
    ensures { IsMade plan.old plan.new (word_of to) (λ numbers.
        (kind : FxType) → frac_of kind ≡ frac
        → Converts (numbers from.place) kind to mode saturate (numbers result.place)) result }
{
    let FxType::Num {
        signed,
        width,
        frac: behind,
    } = to
    else {
        return truth(plan, from);
    };
    let word = Word { signed, width };
    if behind >= frac {
        return settle(plan, from, (behind - frac) as u8, word, saturate);
    }
    settle_quotient(plan, from, (frac - behind) as u8, word, mode, saturate)
}
