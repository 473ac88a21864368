ghost use Rattle.std.specs.Prelude.{◌≡◌, ◌<◌, ◌≤◌, ◌||◌, false, [], length, set, slice_index, slice_index_or, IfOk};
ghost use Rattle.dg_model.specs.Limits.{most_blocks};
ghost use Rattle.dg_flat.specs.inner.Ports.{inputs_at, one_more};
ghost use Rattle.dg_flat.specs.inner.Systems.{AreSystems};
ghost use Rattle.dg_flat.specs.inner.Tables.{IsTable};
ghost use Rattle.dg_flat.specs.inner.Tally.{HaveEnds, IsTally};

use crate::numbering::Side;
use crate::rows::Rows;
use crate::systems::Systems;
use dg_model::{NestedBlock, NestedLine, Target};
use fx_io::OutOfMemory;
use std::alloc::Global;

/// What the lines drive (own). A count of drivers stops at 2.
#[derive(Drop)]
pub struct Tally {
    /// One row a block, as long as it has input ports.
    pub rows: Rows,
    /// How many lines drive each input port.
    pub drivers: Vec<u8>,
    /// How many lines drive the control of each block.
    pub enables: Vec<u8>,
    /// Whether a line meets a port that the block lacks.
    pub lacks: Vec<bool>,
}

/// How many input ports each block has.
fn input_counts(
    alloc: Global,
    systems: &Systems,
    blocks: &[NestedBlock],
) -> Result<Vec<u32>, OutOfMemory>
    requires few { length blocks.now ≤ most_blocks }
    requires systems { AreSystems blocks.now systems.now }
    ensures { IfOk result (λ counts. IsTable (length blocks.now)
        (inputs_at blocks.now) counts.items) }
{
    let mut counts = Vec::with_capacity(alloc, blocks.len())?;
    for place in 0..blocks.len() {
        counts.push(systems.ports(blocks, Side::In, place as u32))?;
    }
    Ok(counts)
}

/// Counts one more.
fn count_one(counts: &mut Vec<u8>, at: usize)
    requires { at < length counts.old.items }
    ensures { counts.new.items ≡
        set counts.old.items at (one_more (slice_index counts.old.items at)) }
{
    let count = counts[at];
    if count < 2 {
        counts[at] = count + 1;
    } else {
        counts[at] = 2;
    }
}

/// Marks a block that lacks a port.
fn mark(marks: &mut Vec<bool>, at: usize, lacks: bool)
    requires { at < length marks.old.items }
    ensures { marks.new.items ≡
        set marks.old.items at (slice_index_or marks.old.items at false || lacks) }
{
    marks[at] = marks[at] | lacks;
}

/// Counts what the lines drive, and marks the blocks that lack a port that one of them meets.
fn put_lines(systems: &Systems, blocks: &[NestedBlock], lines: &[NestedLine], tally: &mut Tally)
    requires systems { AreSystems blocks.now systems.now }
    requires ends { HaveEnds blocks.now lines.now }
    requires tally { IsTally blocks.now [] tally.old }
    ensures { IsTally blocks.now lines.now tally.new }
{
    for line in lines {
        let line = *line;
        let place = line.to as usize;
        mark(
            &mut tally.lacks,
            line.from as usize,
            systems.lacks_output(blocks, line),
        );
        mark(
            &mut tally.lacks,
            place,
            systems.lacks_end(blocks, line.to, line.target),
        );
        match line.target {
            Target::Port(port) => {
                if let Some(cell) = tally.rows.cell(place, port) {
                    count_one(&mut tally.drivers, cell);
                }
            }
            Target::Enable => count_one(&mut tally.enables, place),
        }
    }
}

impl Tally {
    /// What the lines drive.
    pub fn of(
        alloc: Global,
        systems: &Systems,
        blocks: &[NestedBlock],
        lines: &[NestedLine],
    ) -> Result<Tally, OutOfMemory>
        requires few { length blocks.now ≤ most_blocks }
        requires systems { AreSystems blocks.now systems.now }
        requires ends { HaveEnds blocks.now lines.now }
        ensures { IfOk result (IsTally blocks.now lines.now) }
    {
        let rows = Rows::of(alloc, input_counts(alloc, systems, blocks)?)?;
        let drivers = vec![in alloc; 0; rows.cells]?;
        let enables = vec![in alloc; 0; blocks.len()]?;
        let lacks = vec![in alloc; false; blocks.len()]?;
        let mut tally = Tally {
            rows,
            drivers,
            enables,
            lacks,
        };
        put_lines(systems, blocks, lines, &mut tally);
        Ok(tally)
    }
}
