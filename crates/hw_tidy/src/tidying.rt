ghost use Rattle.std.specs.Prelude.{IfOk};
ghost use Rattle.hw_net.specs.Emittable.{IsEmittable};
ghost use Rattle.hw_net.specs.Netlist.{IsNetlist};
ghost use Rattle.hw_refine.specs.Refines.{Refines};

use fx_io::OutOfMemory;
use hw_fold::fold;
use hw_net::Netlist;
use hw_refine::refinements_compose;
use hw_trim::trim;
use std::alloc::Global;

/// The netlist as it is written: without copies, repeated nets and nets that nothing reaches.
/// `OutOfMemory` where memory is wanting.
pub fn tidy(alloc: Global, netlist: &Netlist) -> Result<Netlist, OutOfMemory>
    requires runs { IsNetlist netlist.now }
    requires emittable { IsEmittable netlist.now }
    ensures runs { IfOk result IsNetlist }
    ensures emittable { IfOk result IsEmittable }
    ensures refines { IfOk result (Refines netlist.now) }
{
    refinements_compose();
    let folded = fold(alloc, netlist)?;
    let trimmed = trim(alloc, &folded);
    folded.discard();
    trimmed
}
