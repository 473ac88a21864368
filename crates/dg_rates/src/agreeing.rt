ghost use Rattle.std.specs.Prelude.{◌≡◌, ◌<◌, ◌≤◌, All, IfErr, IfOk, IfSome, IsSome, OnOk, find, length, not};
ghost use Rattle.dg_model.specs.declared.fault.Shown.TheVariants.{Periods as ShownPeriods};
ghost use Rattle.dg_model.specs.declared.rule.Rule.{Rule};
ghost use Rattle.dg_model.specs.Faults.{AllKeep, BreaksAt, IsRefusal, fault_of};
ghost use Rattle.dg_model.specs.Library.{row_of};
ghost use Rattle.dg_model.specs.Limits.{most_blocks};
ghost use Rattle.dg_model.specs.Periods.{period_at};
ghost use Rattle.dg_model.specs.Rate.{KeepsPeriods, joins_periods as joins_periods_of, shown_period, shown_periods, suits as suits_of};
ghost use Rattle.dg_rates.specs.inner.Sources.{asked_among};
ghost use Rattle.dg_rates.specs.inner.Links.{AreSources};

use crate::links::Links;
use dg_model::{Block, CheckFault, Diagram, Kind, Reading, Rule, RuleFault, Shown};
use fx_io::OutOfMemory;
use std::alloc::Global;

/// Whether a block of this kind joins two periods.
pub fn joins_periods(kind: &Kind) -> bool
    ensures { result ≡ joins_periods_of (row_of kind.now).timing.reads }
{
    match kind.row().reads {
        Reading::BeforeIfSlower => true,
        Reading::Now | Reading::Before => false,
    }
}

/// Whether a source of this period suits a block of that (Simulink reference, Rate Transition; the
/// bounds are own).
fn suits(joins: bool, own: Option<u32>, source: Option<u32>) -> bool
    ensures { result ≡ suits_of joins own source }
{
    let Some(source) = source else {
        return true;
    };
    let Some(own) = own else {
        return false;
    };
    if joins {
        own.is_multiple_of(source) || source.is_multiple_of(own)
    } else {
        own == source
    }
}

/// The first source that doesn't suit a block, if there is one.
fn disagreeing(periods: &[Option<u32>], joins: bool, own: Option<u32>, asked: &[u32]) -> Option<u32>
    requires { All (λ source. source < length periods.now) asked.now }
    ensures first { result ≡
        find (λ source. not (suits_of joins own (period_at periods.now source))) asked.now }
    ensures there { IfSome result (λ source. source < length periods.now) }
{
    for source in asked {
        if !suits(joins, own, periods[*source as usize]) {
            return Some(*source);
        }
    }
    None
}

/// The sources that a block's period is held against: the control of its enabled subsystem, which
/// is the last one, isn't asked of a block whose value never changes.
fn asked_of<'a>(sources: &'a [u32], own: Option<u32>, enable: Option<u32>) -> &'a [u32]
    requires { IsSome enable → 0 < length sources.now }
    ensures { result.now ≡ asked_among own enable sources.now }
{
    match own {
        Some(_) => sources,
        None => match enable {
            Some(_) => &sources[..sources.len() - 1],
            None => sources,
        },
    }
}

/// The fault of a block whose period isn't that of a source.
fn periods_fault(
    alloc: Global,
    block: &Block,
    own: Option<u32>,
    other: Option<u32>,
) -> Result<RuleFault, OutOfMemory>
    ensures { IfOk result (λ fault. fault ≡
        fault_of Rule.Rate block.now.path (ShownPeriods (shown_period own) (shown_period other))) }
{
    Ok(RuleFault {
        rule: Rule::Rate,
        place: block.path.text(alloc)?,
        shown: Shown::Periods {
            own: own.unwrap_or(0),
            other: other.unwrap_or(0),
        },
    })
}

/// Whether every source suits its block, or the fault of the first block that one doesn't suit.
pub fn check_periods(
    alloc: Global,
    diagram: &Diagram,
    links: &Links,
    periods: &[Option<u32>],
) -> Result<(), CheckFault>
    requires few { length diagram.now.blocks ≤ most_blocks }
    requires size { length links.now.sources ≡ length diagram.now.blocks }
    requires sources { AreSources diagram.now links.now.sources }
    requires periods { length periods.now ≡ length diagram.now.blocks }
    ensures kept { OnOk result (AllKeep diagram.now (KeepsPeriods diagram.now periods.now)) }
    ensures refused { IfErr result (IsRefusal (BreaksAt diagram.now Rule.Rate
        (KeepsPeriods diagram.now periods.now) (shown_periods diagram.now periods.now))) }
{
    for (place, block) in diagram.blocks.as_slice().iter().enumerate() {
        let own = periods[place];
        let asked = asked_of(links.sources_of(place as u32), own, block.enable);
        if let Some(source) = disagreeing(periods, joins_periods(&block.kind), own, asked) {
            let fault = periods_fault(alloc, block, own, periods[source as usize])?;
            return Err(CheckFault::Broken(fault));
        }
    }
    Ok(())
}
