//! The module of a netlist.
ghost use Rattle.std.specs.Prelude.{◌≡◌, ◌<◌, ◌^◌, length, IfOk};
ghost use Rattle.hw_net.specs.Emittable.{IsEmittable};
ghost use Rattle.hw_net.specs.Frames.{HasCounters};
ghost use Rattle.hw_net.specs.Netlist.{IsNetlist};
ghost use Rattle.vl_emit.specs.Promised.{BreaksNone, HasHeader, ItemsAre, KeepsBits, LabelsAreNames, NamesDiffer, NetsAreShown, NetsFit, OutputsAreShown, ProductsAre, ReadsOnly, RegistersAre, Spells, spelling};
ghost use Rattle.vl_emit.specs.inner.NetItems.{module_of};
ghost use Rattle.vl_emit.specs.inner.Ready.{HaveNets};

use crate::header::ports_of;
use crate::items::items_of;
use crate::source::{Source, label_places};
use fx_io::OutOfMemory;
use hw_net::{Netlist, counter_is_telling, steps_give_rows};
use std::alloc::Global;
use vl_ast::{Module, whole_module};

/// The module of a netlist: a wire or a register for each net, and a port for each of its ports
/// (own). Its time is linear in the nets. The only error is want of memory.
pub fn emit(alloc: Global, netlist: &Netlist) -> Result<Module, OutOfMemory>
    requires runs { IsNetlist netlist.now }
    requires emittable { IsEmittable netlist.now }
    ensures header { IfOk result (HasHeader netlist.now) }
    ensures conditions { IfOk result BreaksNone }
    ensures keeps { IfOk result KeepsBits }
    ensures nets { IfOk result (NetsAreShown netlist.now) }
    ensures outputs { IfOk result (OutputsAreShown netlist.now) }
    ensures products { IfOk result (ProductsAre netlist.now) }
    ensures reads { IfOk result (ReadsOnly netlist.now) }
    ensures registers { IfOk result (RegistersAre netlist.now) }
    ensures labels { IfOk result (LabelsAreNames netlist.now) }
    ensures items { IfOk result (ItemsAre netlist.now) }
    ensures names { IfOk result (λ _. NamesDiffer netlist.now) }
    ensures spelled { IfOk result (λ made. Spells (spelling made) made) }
    ensures fit { IfOk result (NetsFit netlist.now) }
{
    steps_give_rows();
    counter_is_telling();
    module_of(alloc, netlist)
}

/// What `emit` gives. It asks nothing of names.
pub fn module_of(alloc: Global, netlist: &Netlist) -> Result<Module, OutOfMemory>
    requires runs { IsNetlist netlist.now }
    requires counters { HasCounters netlist.now.nets }
    requires labels { HaveNets netlist.now }
    ensures is { IfOk result (λ made. made ≡ module_of netlist.now) }
    ensures few { IfOk result (λ made. length netlist.now.nets < 2 ^ 64) }
{
    let labels = label_places(alloc, netlist.nets().len(), netlist.labels())?;
    let source = Source {
        netlist,
        labels: labels.as_slice(),
    };
    let items = items_of(alloc, source);
    drop(labels);
    let ports = ports_of(alloc, netlist);
    let cycles = u64::from(netlist.cycles());
    whole_module(alloc, b"fx_model", cycles, ports, items)
}
