//! All nets that must stay.
ghost use Rattle.std.specs.Prelude.{◌≡◌, OnOk, IfOk, length};
ghost use Rattle.hw_net.specs.Netlist.{IsNetlist};
ghost use Rattle.hw_net.specs.Emittable.{IsEmittable};
ghost use Rattle.hw_trim.specs.inner.Marks.{IsMarking, Marks, IsRooted, AreServed, IsNeeded};

use crate::marking;
use fx_io::OutOfMemory;
use hw_net::Netlist;
use std::alloc::Global;

/// Marks what is looked at from outside: what ports show, what has a label, and what multiplies.
fn mark_roots(
    marks: &mut [bool],
    order: &mut Vec<u32>,
    netlist: &Netlist,
) -> Result<(), OutOfMemory>
    requires runs { IsNetlist netlist.now }
    requires emittable { IsEmittable netlist.now }
    requires size { length marks.old ≡ length netlist.now.nets }
    requires marking { IsMarking marks.old order.old.items }
    ensures marks { OnOk result (Marks marks.old marks.new order.old.items order.new.items) }
    ensures rooted { OnOk result (IsRooted netlist.now marks.new) }
{
    marking::mark_ports(marks, order, netlist.inputs())?;
    marking::mark_ports(marks, order, netlist.outputs())?;
    marking::mark_labels(marks, order, netlist.labels())?;
    marking::mark_products(marks, order, netlist.nets())
}

/// Goes along the marked nets as they grow and marks what each asks for.
fn spread(marks: &mut [bool], order: &mut Vec<u32>, netlist: &Netlist) -> Result<(), OutOfMemory>
    requires runs { IsNetlist netlist.now }
    requires size { length marks.old ≡ length netlist.now.nets }
    requires marking { IsMarking marks.old order.old.items }
    ensures marks { OnOk result (Marks marks.old marks.new order.old.items order.new.items) }
    ensures served { OnOk result (AreServed netlist.now marks.new) }
{
    let nets = netlist.nets();
    let mut done = 0;
    while done < order.len() {
        let kind = &nets[order[done] as usize].kind;
        marking::mark_needs(marks, order, netlist, kind)?;
        done += 1;
    }
    Ok(())
}

/// Marks the nets that must stay, where none is marked yet.
fn mark_needed(
    marks: &mut [bool],
    order: &mut Vec<u32>,
    netlist: &Netlist,
) -> Result<(), OutOfMemory>
    requires runs { IsNetlist netlist.now }
    requires emittable { IsEmittable netlist.now }
    requires size { length marks.old ≡ length netlist.now.nets }
    requires marking { IsMarking marks.old order.old.items }
    ensures { OnOk result (IsNeeded netlist.now marks.new) }
{
    mark_roots(marks, order, netlist)?;
    spread(marks, order, netlist)
}

/// A mark for each net that must stay.
pub fn needed(alloc: Global, netlist: &Netlist) -> Result<Vec<bool>, OutOfMemory>
    requires runs { IsNetlist netlist.now }
    requires emittable { IsEmittable netlist.now }
    ensures { IfOk result (λ marks. IsNeeded netlist.now marks.items) }
{
    let mut marks = vec![in alloc; false; netlist.nets().len()]?;
    let mut order: Vec<u32> = Vec::new(alloc);
    mark_needed(marks.as_mut_slice(), &mut order, netlist)?;
    Ok(marks)
}
