//! Nets that are marked, each once, in the order in which they were.
ghost use Rattle.std.specs.Prelude.{◌≡◌, ◌<◌, ℕ, OnOk, All, Some, slice_get, true, length, IsTrue, ◌↔◌};
ghost use Rattle.hw_net.specs.Frames.{counter_of};
ghost use Rattle.hw_net.specs.Netlist.{reads};
ghost use Rattle.hw_net.specs.declared.netlist.Net.{Net};
ghost use Rattle.hw_trim.specs.inner.Marks.{is_marked, multiplies, IsMarking, Marks, IsServed};

use fx_io::OutOfMemory;
use hw_net::{Frame, Net, NetKind, NetLabel, NetOp, NetPort, Netlist};

/// Marks a net and puts it behind those that are marked, unless it is one of them.
pub fn mark(marks: &mut [bool], order: &mut Vec<u32>, k: u32) -> Result<(), OutOfMemory>
    requires there { k < length marks.old }
    requires marking { IsMarking marks.old order.old.items }
    ensures marks { OnOk result (Marks marks.old marks.new order.old.items order.new.items) }
    ensures marked { OnOk result (is_marked marks.new k ≡ true) }
{
    if marks[k as usize] {
        return Ok(());
    }
    order.push(k)?;
    marks[k as usize] = true;
    Ok(())
}

/// Marks the nets of a list.
pub fn mark_all(marks: &mut [bool], order: &mut Vec<u32>, list: &[u32]) -> Result<(), OutOfMemory>
    requires there { All (λ k. k < length marks.old) list.now }
    requires marking { IsMarking marks.old order.old.items }
    ensures marks { OnOk result (Marks marks.old marks.new order.old.items order.new.items) }
    ensures marked { OnOk result (All (λ k. is_marked marks.new k ≡ true) list.now) }
{
    for k in list {
        mark(marks, order, *k)?;
    }
    Ok(())
}

/// Marks the nets that ports show.
pub fn mark_ports(
    marks: &mut [bool],
    order: &mut Vec<u32>,
    ports: &[NetPort],
) -> Result<(), OutOfMemory>
    requires there { All (λ port. port.net < length marks.old) ports.now }
    requires marking { IsMarking marks.old order.old.items }
    ensures marks { OnOk result (Marks marks.old marks.new order.old.items order.new.items) }
    ensures marked { OnOk result (All (λ port. is_marked marks.new port.net ≡ true) ports.now) }
{
    for port in ports {
        mark(marks, order, port.net)?;
    }
    Ok(())
}

/// Marks the nets that have a label.
pub fn mark_labels(
    marks: &mut [bool],
    order: &mut Vec<u32>,
    labels: &[NetLabel],
) -> Result<(), OutOfMemory>
    requires there { All (λ label. label.net < length marks.old) labels.now }
    requires marking { IsMarking marks.old order.old.items }
    ensures marks { OnOk result (Marks marks.old marks.new order.old.items order.new.items) }
    ensures marked { OnOk result (All (λ label. is_marked marks.new label.net ≡ true) labels.now) }
{
    for label in labels {
        mark(marks, order, label.net)?;
    }
    Ok(())
}

/// Whether a net multiplies.
fn multiplies(kind: &NetKind) -> bool
    ensures { result ≡ multiplies kind.now }
{
    match kind {
        NetKind::Unit { .. }
        | NetKind::Comb {
            op: NetOp::Multiply,
            ..
        } => true,
        NetKind::Comb { .. }
        | NetKind::Reg { .. }
        | NetKind::EnReg { .. }
        | NetKind::Acc { .. }
        | NetKind::Bridge { .. }
        | NetKind::Counter { .. } => false,
    }
}

/// Marks the nets that multiply.
pub fn mark_products(
    marks: &mut [bool],
    order: &mut Vec<u32>,
    nets: &[Net],
) -> Result<(), OutOfMemory>
    requires size { length marks.old ≡ length nets.now }
    requires marking { IsMarking marks.old order.old.items }
    ensures marks { OnOk result (Marks marks.old marks.new order.old.items order.new.items) }
    ensures marked { OnOk result ((k : ℕ) (net : Net) → slice_get nets.now k ≡ Some net
        → multiplies net.kind ≡ true → is_marked marks.new k ≡ true) }
{
    for k in 0..nets.len() {
        if multiplies(&nets[k].kind) {
            let Ok(number) = u32::try_from(k) else {
                // word: the number of a net, of 32 bits
                return Err(OutOfMemory);
            };
            mark(marks, order, number)?;
        }
    }
    Ok(())
}

/// Marks the Counter of a frame.
fn mark_counter(
    marks: &mut [bool],
    order: &mut Vec<u32>,
    netlist: &Netlist,
    frame: Frame,
) -> Result<(), OutOfMemory>
    requires size { length marks.old ≡ length netlist.now.nets }
    requires marking { IsMarking marks.old order.old.items }
    ensures marks { OnOk result (Marks marks.old marks.new order.old.items order.new.items) }
    ensures marked { OnOk result ((j : ℕ) → counter_of netlist.now.nets frame ≡ Some j
        → is_marked marks.new j ≡ true) }
{
    match netlist.counter_of(frame) {
        Some(number) => mark(marks, order, number),
        None => Ok(()),
    }
}

/// Marks what a register takes, and the Counter of its frame.
fn mark_register(
    marks: &mut [bool],
    order: &mut Vec<u32>,
    netlist: &Netlist,
    frame: Frame,
    list: &[u32],
) -> Result<(), OutOfMemory>
    requires size { length marks.old ≡ length netlist.now.nets }
    requires there { All (λ k. k < length marks.old) list.now }
    requires marking { IsMarking marks.old order.old.items }
    ensures marks { OnOk result (Marks marks.old marks.new order.old.items order.new.items) }
    ensures counter { OnOk result ((j : ℕ) → counter_of netlist.now.nets frame ≡ Some j
        → is_marked marks.new j ≡ true) }
    ensures marked { OnOk result (All (λ k. is_marked marks.new k ≡ true) list.now) }
{
    mark_counter(marks, order, netlist, frame)?;
    mark_all(marks, order, list)
}

/// Marks what a net asks for: what it reads, and the Counter of the frame that it names.
pub fn mark_needs(
    marks: &mut [bool],
    order: &mut Vec<u32>,
    netlist: &Netlist,
    kind: &NetKind,
) -> Result<(), OutOfMemory>
    requires size { length marks.old ≡ length netlist.now.nets }
    requires there { All (λ k. k < length marks.old) (reads kind.now) }
    requires marking { IsMarking marks.old order.old.items }
    ensures marks { OnOk result (Marks marks.old marks.new order.old.items order.new.items) }
    ensures served { OnOk result (IsServed netlist.now.nets marks.new kind.now) }
{
    match kind {
        NetKind::Comb { op: _, args } => mark_all(marks, order, args.as_slice()),
        NetKind::Unit { left, right } => mark_all(marks, order, &[*left, *right]),
        NetKind::Reg { frame, from, .. } | NetKind::Bridge { frame, from, .. } => {
            mark_register(marks, order, netlist, *frame, &[*from])
        }
        NetKind::EnReg {
            frame,
            enable,
            from,
            ..
        }
        | NetKind::Acc {
            frame,
            enable,
            from,
        } => mark_register(marks, order, netlist, *frame, &[*enable, *from]),
        NetKind::Counter { .. } => Ok(()),
    }
}
