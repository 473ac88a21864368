ghost use Rattle.std.specs.Prelude.{◌≡◌, ◌<◌, ◌++◌, OnOk, IfOk, All, map, length};
ghost use Rattle.hw_net.specs.Netlist.{reads};
ghost use Rattle.hw_renumber.specs.Renumbered.{place_in, moved_nets, moved_port, moved_label};
ghost use Rattle.hw_renumber.specs.Renumbered.{renumbered, CanMove};

use crate::moving;
use fx_io::OutOfMemory;
use hw_net::{Net, NetLabel, NetPort, Netlist};
use std::alloc::Global;

/// Puts some of the nets behind those of a netlist.
fn put_nets(
    made: &mut Netlist,
    alloc: Global,
    nets: &[Net],
    kept: &[u32],
    places: &[u32],
) -> Result<(), OutOfMemory>
    requires there { All (λ net. All (λ read. read < length places.now) (reads net.kind)) nets.now }
    requires kept { All (λ k. k < length nets.now) kept.now }
    ensures { OnOk result (made.new ≡ record made.old {
      nets = made.old.nets ++ moved_nets nets.now (place_in places.now) kept.now;
    }) }
{
    for k in kept {
        let net = moving::moved_net(alloc, &nets[*k as usize], places)?;
        made.add(net)?;
    }
    Ok(())
}

/// Puts input ports behind those of a netlist.
fn put_inputs(
    made: &mut Netlist,
    alloc: Global,
    ports: &[NetPort],
    places: &[u32],
) -> Result<(), OutOfMemory>
    requires { All (λ port. port.net < length places.now) ports.now }
    ensures { OnOk result (made.new ≡ record made.old {
      inputs = made.old.inputs ++ map (moved_port (place_in places.now)) ports.now;
    }) }
{
    for port in ports {
        made.add_input(moving::moved_port(alloc, port, places)?)?;
    }
    Ok(())
}

/// Puts output ports behind those of a netlist.
fn put_outputs(
    made: &mut Netlist,
    alloc: Global,
    ports: &[NetPort],
    places: &[u32],
) -> Result<(), OutOfMemory>
    requires { All (λ port. port.net < length places.now) ports.now }
    ensures { OnOk result (made.new ≡ record made.old {
      outputs = made.old.outputs ++ map (moved_port (place_in places.now)) ports.now;
    }) }
{
    for port in ports {
        made.add_output(moving::moved_port(alloc, port, places)?)?;
    }
    Ok(())
}

/// Puts labels behind those of a netlist.
fn put_labels(
    made: &mut Netlist,
    alloc: Global,
    labels: &[NetLabel],
    places: &[u32],
) -> Result<(), OutOfMemory>
    requires { All (λ label. label.net < length places.now) labels.now }
    ensures { OnOk result (made.new ≡ record made.old {
      labels = made.old.labels ++ map (moved_label (place_in places.now)) labels.now;
    }) }
{
    for label in labels {
        made.add_label(moving::moved_label(alloc, label, places)?)?;
    }
    Ok(())
}

/// Puts the nets that stay, the ports and the labels into a netlist that has none.
fn put_all(
    made: &mut Netlist,
    alloc: Global,
    netlist: &Netlist,
    kept: &[u32],
    places: &[u32],
) -> Result<(), OutOfMemory>
    requires { CanMove netlist.now kept.now places.now }
    ensures { OnOk result (made.new ≡ record {
      cycles = made.old.cycles;
      nets = made.old.nets ++ moved_nets netlist.now.nets (place_in places.now) kept.now;
      inputs = made.old.inputs ++ map (moved_port (place_in places.now)) netlist.now.inputs;
      outputs = made.old.outputs ++ map (moved_port (place_in places.now)) netlist.now.outputs;
      labels = made.old.labels ++ map (moved_label (place_in places.now)) netlist.now.labels;
    }) }
{
    put_nets(made, alloc, netlist.nets(), kept, places)?;
    put_inputs(made, alloc, netlist.inputs(), places)?;
    put_outputs(made, alloc, netlist.outputs(), places)?;
    put_labels(made, alloc, netlist.labels(), places)
}

/// The netlist of the nets of these numbers, in their order, with the ports and labels of another.
/// What names a net names its place. `OutOfMemory` where memory is wanting.
pub fn renumbered(
    alloc: Global,
    netlist: &Netlist,
    kept: &[u32],
    places: &[u32],
) -> Result<Netlist, OutOfMemory>
    requires { CanMove netlist.now kept.now places.now }
    ensures { IfOk result (λ made. made ≡ renumbered netlist.now (place_in places.now) kept.now) }
{
    let mut made = Netlist::new(alloc, netlist.cycles());
    put_all(&mut made, alloc, netlist, kept, places)?;
    Ok(made)
}
