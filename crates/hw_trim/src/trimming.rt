ghost use Rattle.std.specs.Prelude.{IfOk};
ghost use Rattle.hw_net.specs.Emittable.{IsEmittable};
ghost use Rattle.hw_net.specs.Netlist.{IsNetlist};
ghost use Rattle.hw_refine.specs.Refines.{Refines};
ghost use Rattle.hw_trim.specs.inner.Marks.{IsNeeded};

use crate::keeping::keep;
use crate::spreading::needed;
use fx_io::OutOfMemory;
use hw_net::Netlist;
use hw_order::{rows_are_one, rows_are_there};
use hw_refine::drops_refine;
use hw_renumber::{renumbered, renumbered_emits, renumbered_runs};
use std::alloc::Global;

/// The netlist of the nets that are marked.
fn marked_part(alloc: Global, netlist: &Netlist, marks: &[bool]) -> Result<Netlist, OutOfMemory>
    requires runs { IsNetlist netlist.now }
    requires emittable { IsEmittable netlist.now }
    requires needed { IsNeeded netlist.now marks.now }
    ensures runs { IfOk result IsNetlist }
    ensures emittable { IfOk result IsEmittable }
    ensures refines { IfOk result (Refines netlist.now) }
{
    rows_are_there();
    rows_are_one();
    drops_refine();
    renumbered_runs();
    renumbered_emits();
    let mut kept: Vec<u32> = Vec::new(alloc);
    let mut places: Vec<u32> = Vec::new(alloc);
    keep(&mut kept, &mut places, marks)?;
    renumbered(alloc, netlist, kept.as_slice(), places.as_slice())
}

/// The netlist without the nets that nothing reaches, in the time that its nets and the look-ups of
/// their Counters take. `OutOfMemory` where memory is wanting.
pub fn trim(alloc: Global, netlist: &Netlist) -> Result<Netlist, OutOfMemory>
    requires runs { IsNetlist netlist.now }
    requires emittable { IsEmittable netlist.now }
    ensures runs { IfOk result IsNetlist }
    ensures emittable { IfOk result IsEmittable }
    ensures refines { IfOk result (Refines netlist.now) }
{
    let marks = needed(alloc, netlist)?;
    marked_part(alloc, netlist, marks.as_slice())
}
