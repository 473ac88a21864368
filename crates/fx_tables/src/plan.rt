ghost use Rattle.std.specs.Prelude.{◌≢◌, IfOk, IfErr};
ghost use Rattle.dg_model.specs.PlanRange.{IsPlanInRange};
ghost use Rattle.fx_tables.specs.Plan.{IsPlan, IsPlanFault};

use crate::cut::cut_line;
use crate::draft::Draft;
use crate::table::{TableCause, TableFault};
use dg_model::Plan;
use std::alloc::Global;

/// Reads a plan (own). A line is blank, begins with `#`, or is one of `cycles F` with F from 1 to
/// 1024, `multipliers M` with M from 0 to 64, each at most once, and `pipeline "PATH" N` with N
/// from 1 to 64, at most once for a path, which is quoted as in MDL. Without a line F is 1 and M
/// is 0.
/// `Bad` names the first other line, always with the cause `PlanLine`.
pub fn read_plan(alloc: Global, bytes: &[u8]) -> Result<Plan, TableFault>
    ensures plan { IfOk result (IsPlan bytes.now) }
    ensures in_range { IfOk result IsPlanInRange }
    ensures refused { IfErr result (λ fault.
        fault ≢ TableFault.OutOfMemory → IsPlanFault bytes.now fault) }
{
    let mut draft = Draft::new(alloc);
    let mut rest = bytes;
    let mut line = 0u64;
    while !rest.is_empty() {
        let cut = cut_line(rest);
        line += 1;
        if !draft.read_line(alloc, cut.head)? {
            return Err(TableFault::Bad {
                line,
                cause: TableCause::PlanLine,
            });
        }
        rest = cut.tail;
    }
    Ok(draft.finish())
}
