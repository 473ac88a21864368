ghost use Rattle.std.specs.Prelude.{◌≡◌, IfErr, IfOk, OnOk};
ghost use Rattle.dg_model.specs.Attributes.{attributes_of};
ghost use Rattle.dg_model.specs.Checked.{BreaksRule, IsChecked, IsPropagated};
ghost use Rattle.dg_model.specs.Dimension.{KeepsDimensions};
ghost use Rattle.dg_model.specs.Faults.{IsRefusal};
ghost use Rattle.dg_model.specs.Loop.{IsOrder};
ghost use Rattle.dg_model.specs.Periods.{periods_of};
ghost use Rattle.dg_model.specs.TypeRule.{KeepsTypes};
ghost use Rattle.dg_model.specs.Wired.{IsWired};

use dg_model::{CheckFault, Checked, Diagram, Propagated};
use dg_rates::rates;
use dg_sort::order;
use dg_types::{types, widths};
use fx_io::{Periods, Sizes};
use std::alloc::Global;

/// A diagram that isn't accepted, and why.
#[derive(Drop)]
pub struct Refused {
    /// The first rule that it breaks, or want of memory.
    pub fault: CheckFault,
    /// The diagram itself.
    pub diagram: Diagram,
}

/// The diagram with what propagation gives its blocks, where it keeps the rules of dimensions, types,
/// rates and loops (Simulink reference, signal attributes, sample times and sorted order).
///
/// # Errors
/// Broken exactly where one of these rules is broken: the first one, at its first block.
/// Or want of memory. The diagram comes back with the fault.
pub fn check(alloc: Global, diagram: Diagram) -> Result<Checked, Refused>
    requires { IsWired diagram }
    ensures accepted { IfOk result (λ checked. checked.diagram ≡ diagram) }
    ensures kept { IfErr result (λ refused. refused.diagram ≡ diagram) }
    ensures broken { IfErr result (λ refused. IsRefusal (BreaksRule diagram) refused.fault) }
{
    match propagation(alloc, &diagram) {
        Ok(values) => Ok(Checked::new(diagram, values)),
        Err(fault) => Err(Refused { fault, diagram }),
    }
}

/// What propagation gives the blocks of a diagram, or the first rule that it breaks.
fn propagation(alloc: Global, diagram: &Diagram) -> Result<Propagated, CheckFault>
    requires { IsWired diagram.now }
    ensures checked { IfOk result (λ _. IsChecked diagram.now) }
    ensures propagated { IfOk result (IsPropagated diagram.now) }
    ensures broken { IfErr result (IsRefusal (BreaksRule diagram.now)) }
{
    let widths = widths(alloc, diagram)?;
    let typed = types(alloc, diagram, &widths)?;
    match timing_of(alloc, diagram) {
        Ok(timed) => Ok(Propagated {
            widths,
            types: typed.results,
            params: typed.params,
            periods: timed.periods,
            order: timed.order,
        }),
        Err(fault) => {
            drop(widths);
            drop(typed);
            Err(fault)
        }
    }
}

/// When the blocks of a diagram hit, and after which others.
#[derive(Drop)]
struct Timing {
    periods: Periods,
    order: Sizes,
}

/// The periods of a diagram that keeps the rules of dimensions and types, and the order of its
/// blocks, or the first of the rules of rates and loops that it breaks.
fn timing_of(alloc: Global, diagram: &Diagram) -> Result<Timing, CheckFault>
    requires wired { IsWired diagram.now }
    requires dimensions { KeepsDimensions diagram.now }
    requires types { KeepsTypes diagram.now }
    ensures checked { OnOk result (IsChecked diagram.now) }
    ensures periods { IfOk result (λ timing. timing.periods ≡ periods_of diagram.now) }
    ensures order { IfOk result (λ timing.
        IsOrder diagram.now (attributes_of diagram.now) timing.order) }
    ensures broken { IfErr result (IsRefusal (BreaksRule diagram.now)) }
{
    let periods = rates(alloc, diagram)?;
    match order(alloc, diagram, periods.as_slice()) {
        Ok(order) => Ok(Timing { periods, order }),
        Err(fault) => {
            drop(periods);
            Err(fault)
        }
    }
}
