//! The lines of broken rules.

use anyhow::{Error, Result};
use cmd_model::rule_text;
use dg_model::{Block, CheckFault, RuleFault};
use std::alloc::Global;
use std::io::Write;
use tests_rows::write_result;

/// Tells a broken rule; the blocks are those whose numbers it may show.
pub fn put_fault<W: Write>(
    alloc: Global,
    fault: CheckFault,
    blocks: &[Block],
    out: &mut W,
) -> Result<()> {
    let put = put_broken(alloc, &fault, blocks, out);
    drop(fault);
    put
}

fn put_broken<W: Write>(
    alloc: Global,
    fault: &CheckFault,
    blocks: &[Block],
    out: &mut W,
) -> Result<()> {
    match fault {
        CheckFault::Broken(fault) => put_rule(alloc, fault, blocks, out),
        CheckFault::OutOfMemory => Err(Error::msg("out of memory")),
    }
}

/// Tells the rule that is broken.
pub fn put_rule<W: Write>(
    alloc: Global,
    fault: &RuleFault,
    blocks: &[Block],
    out: &mut W,
) -> Result<()> {
    let line = rule_text(alloc, fault, blocks)?;
    write_result(out.write_all(line.bytes()))
}
