//! What needs memory, before the first byte is put.
ghost use Rattle.std.specs.Prelude.{◌≡◌, ◌<◌, All, IfOk, length, map};
ghost use Rattle.dg_model.specs.Attributes.{attributes_of};
ghost use Rattle.hw_rules.specs.Times.{AreTimes, timing_in};
ghost use Rattle.hw_sched.specs.Ready.{declared_latency};
ghost use Rattle.cmd_check.specs.Gathered.{IsGathered, clocks_at};

use dg_model::Checked;
use dg_tables::output_blocks;
use fx_io::{OutOfMemory, Sizes, Texts};
use hw_names::{discard, port_names};
use hw_rules::Planned;
use hw_slots::total;
use std::alloc::Global;

/// The names of a diagram's ports, the blocks of its root outputs, when the first number of each is
/// shown, and room for a path to one (own).
#[derive(Drop)]
pub struct Gathered {
    pub(crate) names: Texts,
    pub(crate) outputs: Sizes,
    pub(crate) clocks: Vec<u64>,
    pub(crate) room: Vec<u32>,
}

impl Gathered {
    /// Frees all four.
    pub(crate) fn discard(self) {
        let Gathered {
            names,
            outputs,
            clocks,
            room,
        } = self;
        discard(names);
        drop(outputs);
        drop(clocks);
        drop(room);
    }
}

/// When the first number of a block is shown, in clocks; 2^64 or more is want of memory.
pub fn clocks_of(checked: &Checked, planned: &Planned, block: u32) -> Result<u64, OutOfMemory>
    requires times { AreTimes checked.now.diagram planned.now.resolved planned.now.times }
    requires there { block < length checked.now.diagram.blocks }
    ensures { IfOk result (λ clocks. clocks ≡ declared_latency checked.now.diagram
        (attributes_of checked.now.diagram) planned.now.resolved (timing_in planned.now.times)
        block) }
{
    let lat = planned.times.latencies.lat.as_slice()[block as usize];
    let ready = planned.times.slots.ready.as_slice()[block as usize];
    match lat.checked_mul(u64::from(planned.resolved.cycles)) {
        Some(clocks) => total(clocks, ready),
        // word: clocks are counted in 64 bits
        None => Err(OutOfMemory),
    }
}

/// Those of blocks.
fn clocks_of_all(
    alloc: Global,
    checked: &Checked,
    planned: &Planned,
    blocks: &[u32],
) -> Result<Vec<u64>, OutOfMemory>
    requires times { AreTimes checked.now.diagram planned.now.resolved planned.now.times }
    requires there { All (λ block. block < length checked.now.diagram.blocks) blocks.now }
    ensures { IfOk result (λ clocks. clocks.items ≡ map (clocks_at checked.now.diagram
        planned.now.resolved (timing_in planned.now.times)) blocks.now) }
{
    let mut all = Vec::new(alloc);
    for block in blocks {
        all.push(clocks_of(checked, planned, *block)?)?;
    }
    Ok(all)
}

/// What the text of a checked diagram by a plan that keeps the rules needs memory for.
///
/// # Errors
/// Want of memory.
pub fn gather(alloc: Global, checked: &Checked, planned: &Planned) -> Result<Gathered, OutOfMemory>
    requires { AreTimes checked.now.diagram planned.now.resolved planned.now.times }
    ensures { IfOk result (IsGathered checked.now.diagram planned.now.resolved
        (timing_in planned.now.times)) }
{
    checked.keeps_rules();
    dg_model::root_elements_are_listed();
    let room = vec![in alloc; 0u32; checked.diagram().blocks.as_slice().len()]?;
    let outputs = output_blocks(alloc, checked)?;
    let clocks = clocks_of_all(alloc, checked, planned, outputs.as_slice())?;
    let names = port_names(alloc, checked)?;
    Ok(Gathered {
        names,
        outputs,
        clocks,
        room,
    })
}
