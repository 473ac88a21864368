//! Plans that workers explore.
ghost use Rattle.hw_explore.specs.Range.{IsRange};

use crate::meeting::Meeting;
use anyhow::{Error, Result};
use cmd_model::accept;
use hw_explore::{Range, explore};
use std::alloc::Global;
use std::io::Write;
use std::thread::Threads;
use tests_rows::write_result;

/// 64 clocks by 64 multipliers.
pub const WHOLE: Range = Range {
    low_cycles: 1,
    high_cycles: 64,
    low_multipliers: 1,
    high_multipliers: 64,
};

/// 8 clocks without multipliers.
pub const FEW: Range = Range {
    low_cycles: 1,
    high_cycles: 8,
    low_multipliers: 0,
    high_multipliers: 0,
};

/// How many plans of a model are explored.
fn plan_count<R: Threads + Sync>(
    rt: &R,
    alloc: Global,
    model: &[u8],
    range: Range,
    meeting: &Meeting,
) -> Result<usize>
    requires { IsRange range }
{
    match accept(alloc, model) {
        Ok(checked) => {
            let found = explore(rt, alloc, &checked, range, meeting);
            drop(checked);
            let findings = found?;
            let count = findings.rows.as_slice().len();
            drop(findings);
            Ok(count)
        }
        Err(fault) => {
            drop(fault);
            Err(Error::msg("the model is refused"))
        }
    }
}

/// Writes how many plans of a model are explored, and how many workers met meanwhile.
pub fn put_explored<R: Threads + Sync, W: Write>(
    rt: &R,
    alloc: Global,
    model: &[u8],
    range: Range,
    out: &mut W,
) -> Result<()>
    requires { IsRange range }
{
    let meeting = Meeting::new(u64::from(range.pairs()).saturating_sub(1));
    let explored = plan_count(rt, alloc, model, range, &meeting)?;
    let met = meeting.met_count();
    write_result(writeln!(out, "{explored} plans, {met} workers met"))
}
