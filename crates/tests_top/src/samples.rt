//! Texts of samples, and the summaries that benches lead to.

use crate::fixed::Fixed;
use anyhow::{Error, Result};
use cmd_sample::{Made, model_text, plan_text, stimulus_text, summary};
use std::alloc::Global;
use std::io::Write;
use tests_rows::{Row, write_result};

/// What the module of a sample might say of itself.
const MADE: Made = Made {
    multiplications: 1,
    out_latency: 1,
    slow_latency: 64,
};

const RESPONSE: &[u8] = b"1 2\n3 -\n5 6\n7 -\n9 0\n1 -\n3 4\n5 -\n";

/// The most blocks of a sample.
const MOST: u32 = 5000;

/// Writes the model and the stimulus of a sample of so many blocks.
pub fn put_sample<W: Write>(alloc: Global, row: &mut Row<'_>, out: &mut W) -> Result<()> {
    let count = row.number()?;
    if count > MOST {
        return Err(Error::msg("too many blocks"));
    }
    out.write_all(model_text(alloc, count)?.bytes())?;
    write_result(out.write_all(stimulus_text(alloc, count)?.bytes()))
}

/// Writes the summary where a bench tells these bytes.
pub fn put_summary<W: Write>(alloc: Global, tells: &[u8], out: &mut W) -> Result<()> {
    let mut bench = Fixed { tells };
    let text = summary(alloc, 1, MADE, b"", RESPONSE, &mut bench)?;
    write_result(out.write_all(text.bytes()))
}
