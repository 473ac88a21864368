ghost use Rattle.std.specs.Prelude.{◌≡◌, ◌<◌, All, IfErr, IfOk, IfSome, OnErr, OnOk, Some, codes};
ghost use Rattle.std.specs.Option.{option_map};
ghost use Rattle.dg_model.specs.declared.diagram.Block.{Block};
ghost use Rattle.dg_model.specs.declared.fault.Shown.TheVariants.{Word};
ghost use Rattle.dg_model.specs.declared.rule.Rule.{Rule};
ghost use Rattle.dg_model.specs.Faults.{AllKeep, BreaksAt, IsRefusal, fault_of};
ghost use Rattle.dg_model.specs.Library.{row_of};
ghost use Rattle.dg_model.specs.Periods.{base_units, first_inherited, first_periods as first_periods_of, least_of, units_of};
ghost use Rattle.dg_model.specs.Rate.{KeepsDeclared};
ghost use Rattle.dg_rates.specs.inner.Above.{IsAbove, KeepsIn, first_in, least_units};

use crate::rounds::Known;
use crate::units::{is_less, times_of};
use dg_model::{Block, CheckFault, Diagram, Inherited, Kind, PeriodSpec, Rule, RuleFault, Shown};
use fx_io::{OutOfMemory, Sequence, Text};
use fx_type::Decimal;
use std::alloc::Global;

/// A declared period is no whole multiple of the base period, or more than 4096 times that.
#[derive(Drop)]
pub struct NotWhole;

/// The shorter of a period and another, where there is another.
fn shorter(other: Option<Decimal>, period: Decimal) -> Decimal
    requires period { 0 < period.digits }
    requires other { IfSome other (λ decimal. 0 < decimal.digits) }
    ensures value { Some (units_of result) ≡
        least_of (option_map units_of other) (Some (units_of period)) }
    ensures above { 0 < result.digits }
{
    match other {
        Some(other) => {
            if is_less(period, other) {
                period
            } else {
                other
            }
        }
        None => period,
    }
}

/// The least declared period, if there is one.
fn least_declared(blocks: &[Block]) -> Option<Decimal>
    requires { All IsAbove blocks.now }
    ensures least { option_map units_of result ≡ least_units blocks.now }
    ensures above { IfSome result (λ decimal. 0 < decimal.digits) }
{
    let mut least: Option<Decimal> = None;
    for block in blocks {
        if let PeriodSpec::Every(period) = block.period {
            least = Some(shorter(least, period));
        }
    }
    least
}

/// The base period: the least declared one, and 1 where none is declared (Simulink reference, base
/// sample time; the whole multiples of it are own).
pub fn base_period(diagram: &Diagram) -> Decimal
    requires { All IsAbove diagram.now.blocks }
    ensures value { units_of result ≡ base_units diagram.now }
    ensures above { 0 < result.digits }
{
    match least_declared(diagram.blocks.as_slice()) {
        Some(period) => period,
        None => Decimal {
            negative: false,
            digits: 1,
            exponent: 0,
        },
    }
}

/// The period that an inheriting block of this kind has before the first round.
fn inherited_period(kind: &Kind) -> Known
    ensures { result ≡ first_inherited (row_of kind.now).timing.inherits }
{
    match kind.row().inherits {
        Inherited::OfSources | Inherited::Moving => None,
        Inherited::Base => Some(Some(1)),
        Inherited::Unchanging => Some(None),
    }
}

/// The period that a block has before the first round.
fn first_period(block: &Block, base: Decimal) -> Result<Known, NotWhole>
    requires above { IsAbove block.now }
    requires base { 0 < base.digits }
    ensures known { IfOk result (λ known. known ≡
        first_in (units_of base) block.now.kind block.now.period) }
    ensures kept { OnOk result (KeepsIn (units_of base) block.now) }
    ensures broken { OnErr result (¬ KeepsIn (units_of base) block.now) }
{
    match block.period {
        PeriodSpec::Every(period) => match times_of(period, base) {
            Some(times) => Ok(Some(Some(times))),
            None => Err(NotWhole),
        },
        PeriodSpec::Constant => Ok(Some(None)),
        PeriodSpec::Inherit => Ok(inherited_period(&block.kind)),
    }
}

/// The fault of a declared period that can't be.
fn declared_fault(alloc: Global, block: &Block) -> Result<RuleFault, OutOfMemory>
    ensures { IfOk result (λ fault. fault
        ≡ fault_of Rule.Rate block.now.path (Word (codes "declared"))) }
{
    Ok(RuleFault {
        rule: Rule::Rate,
        place: block.path.text(alloc)?,
        shown: Shown::Word(Text::copy(alloc, b"declared")?),
    })
}

/// The periods before the first round, or the fault of the first declared period that is no whole
/// multiple of the base period or more than 4096 times that.
pub fn first_periods(
    alloc: Global,
    diagram: &Diagram,
    base: Decimal,
) -> Result<Vec<Known>, CheckFault>
    requires above { All IsAbove diagram.now.blocks }
    requires base { 0 < base.digits }
    requires base_is { units_of base ≡ base_units diagram.now }
    ensures known { IfOk result (λ first. first.items ≡ first_periods_of diagram.now) }
    ensures kept { OnOk result (AllKeep diagram.now (KeepsDeclared diagram.now)) }
    ensures refused { IfErr result (IsRefusal (BreaksAt diagram.now Rule.Rate
        (KeepsDeclared diagram.now) (λ place block. Word (codes "declared")))) }
{
    let mut first: Sequence<Known> = Sequence::new(alloc);
    for block in diagram.blocks.as_slice() {
        match first_period(block, base) {
            Ok(known) => first.push(known)?,
            Err(NotWhole) => {
                let fault = declared_fault(alloc, block)?;
                return Err(CheckFault::Broken(fault));
            }
        }
    }
    Ok(first.into_vec())
}
