ghost use Rattle.std.specs.Prelude.{IfOk, IfSome};
ghost use Rattle.vl_eval.specs.inner.Moves.{CanMove, IsMoved, IsWatch};
ghost use Rattle.vl_eval.specs.inner.Ops.{IsOrdered};

use crate::marks::{BLOCK, Marks};
use crate::moving::{move_all, move_marked};
use crate::plan::Plan;
use crate::readers::{Readers, readers_of};
use fx_io::OutOfMemory;
use std::alloc::Global;

/// The fewest operations that are watched: fewer are soon worked out.
const FEWEST: usize = 512;

/// The most operations that are watched.
const MOST: usize = 1 << 20;

/// For how many edges all is worked out once much has changed at one.
const BUSY: u32 = 63;

/// What tells the operations that an edge leaves as they are.
#[derive(Drop)]
pub struct Watch {
    pub readers: Readers,
    pub marks: Marks,
    /// At so many edges to come all operations are worked out.
    pub busy: u32,
}

/// A watch of operations that aren't too few or too many.
pub fn watch_of(alloc: Global, plan: &Plan) -> Result<Option<Watch>, OutOfMemory>
    requires { IsOrdered plan.now.base plan.now.arranged.ops }
    ensures { IfOk result (λ watch. IfSome watch (IsWatch plan.now)) }
{
    let count = plan.arranged.ops.len();
    if count < FEWEST || count > MOST {
        return Ok(None);
    }
    let readers = readers_of(alloc, plan.base, &plan.arranged.ops)?;
    let marks = Marks {
        each: vec![in alloc; false; count]?,
        blocks: vec![in alloc; false; count / BLOCK + 1]?,
    };
    Ok(Some(Watch {
        readers,
        marks,
        busy: 0,
    }))
}

/// Moves a row on by what changes, or, while much does, at once.
fn move_watched(plan: &Plan, watch: &mut Watch, inputs: &[u128], values: &mut [u128])
    requires can { CanMove plan.now inputs.now values.old }
    requires watch { IsWatch plan.now watch.old }
    ensures moved { IsMoved plan.now inputs.now values.old values.new }
    ensures watch { IsWatch plan.now watch.new }
{
    if watch.busy > 0 {
        watch.busy -= 1;
        move_all(plan, inputs, values);
        return;
    }
    let worked = move_marked(plan, &watch.readers, &mut watch.marks, inputs, values);
    if worked > plan.arranged.ops.len() / 4 {
        watch.busy = BUSY;
    }
}

/// Moves a row on: captures what the registers take, puts the bits of the input ports in, and works
/// operations out.
pub fn move_on(plan: &Plan, watch: &mut Option<Watch>, inputs: &[u128], values: &mut [u128])
    requires can { CanMove plan.now inputs.now values.old }
    requires watch { IfSome watch.old (IsWatch plan.now) }
    ensures moved { IsMoved plan.now inputs.now values.old values.new }
    ensures watch { IfSome watch.new (IsWatch plan.now) }
{
    match watch {
        None => move_all(plan, inputs, values),
        Some(watch) => move_watched(plan, watch, inputs, values),
    }
}
