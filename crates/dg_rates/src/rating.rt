ghost use Rattle.std.specs.Prelude.{◌≡◌, IfErr, IfOk, OnOk};
ghost use Rattle.dg_model.specs.Faults.{IsRefusal};
ghost use Rattle.dg_model.specs.Periods.{periods_of};
ghost use Rattle.dg_model.specs.Rate.{BreaksRate, KeepsRates};
ghost use Rattle.dg_model.specs.Wired.{IsWired};

use crate::agreeing::check_periods;
use crate::declared::{base_period, first_periods};
use crate::links::Links;
use crate::rounds::PeriodRound;
use dg_model::{CheckFault, Diagram};
use fx_io::{OutOfMemory, Periods};
use std::alloc::Global;

/// The period of each block of a diagram in base samples, in file order; `None` is a value that
/// never changes (Simulink reference, sample times and their propagation; the rounds are own).
///
/// The base period is the least declared one, and 1 where none is declared. A block that inherits
/// takes the least finite period of its sources: the blocks that drive it, and the control of the
/// enabled subsystem that holds it.
///
/// # Errors
/// Broken exactly where the rule of rates is broken: at the first block whose declared
/// period is no whole multiple of the base period or more than 4096 times that, shown as
/// `declared`; or where there is none, at the first block with a source of another period, which at
/// a RateTransition neither divides nor is divided by its own, shown as the two periods. Or want of
/// memory.
pub fn rates(alloc: Global, diagram: &Diagram) -> Result<Periods, CheckFault>
    requires { IsWired diagram.now }
    ensures periods { IfOk result (λ periods. periods ≡ periods_of diagram.now) }
    ensures kept { OnOk result (KeepsRates diagram.now) }
    ensures refused { IfErr result (IsRefusal (BreaksRate diagram.now)) }
{
    let base = base_period(diagram);
    let first = first_periods(alloc, diagram, base)?;
    let blocks = diagram.blocks.as_slice();
    let links = Links::of(alloc, diagram)?;
    let round = PeriodRound { blocks, links };
    let periods = match round.periods(alloc, diagram, first) {
        Ok(periods) => periods,
        Err(OutOfMemory) => {
            drop(round);
            return Err(CheckFault::OutOfMemory);
        }
    };
    match check_periods(alloc, diagram, &round.links, periods.as_slice()) {
        Ok(()) => {
            drop(round);
            Ok(periods)
        }
        Err(fault) => {
            drop(round);
            drop(periods);
            Err(fault)
        }
    }
}
