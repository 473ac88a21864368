//! Nets that keep their place: those with a label, and the wires that registers with a label take.
ghost use Rattle.std.specs.Prelude.{◌≡◌, ◌<◌, ℕ, ℤ, All, Contains, length, Some, MatchOption, ⊤};
ghost use Rattle.hw_net.specs.declared.netlist.Frame.{Frame};
ghost use Rattle.hw_net.specs.declared.netlist.NetKind.TheVariants.{Reg};
ghost use Rattle.hw_net.specs.Netlist.{reads};
ghost use Rattle.hw_fold.specs.inner.Pins.{IsPinned, KeepsMarks};

use hw_net::{Net, NetKind, NetLabel};

/// The wire that a register takes.
fn wire_of(kind: &NetKind) -> Option<u32>
    ensures is { (frame : Frame) (slot : ℕ) (first : ℤ) (from : ℕ)
        → kind.now ≡ Reg frame slot first from → result ≡ Some from }
    ensures read { MatchOption result ⊤ (Contains (reads kind.now)) }
{
    match kind {
        NetKind::Reg { from, .. } => Some(*from),
        NetKind::Comb { .. }
        | NetKind::EnReg { .. }
        | NetKind::Acc { .. }
        | NetKind::Bridge { .. }
        | NetKind::Unit { .. }
        | NetKind::Counter { .. } => None,
    }
}

/// Marks a net, and as one that stands for no other the one that it takes, if it is a register.
fn pin_net(own: &mut [bool], alone: &mut [bool], nets: &[Net], k: u32)
    requires there { All (λ net. All (λ read. read < length nets.now) (reads net.kind)) nets.now }
    requires own { length own.old ≡ length nets.now }
    requires alone { length alone.old ≡ length nets.now }
    requires inside { k < length nets.now }
    ensures own { KeepsMarks own.old own.new }
    ensures alone { KeepsMarks alone.old alone.new }
    ensures pinned { IsPinned nets.now own.new alone.new k }
{
    own[k as usize] = true;
    if let Some(from) = wire_of(&nets[k as usize].kind) {
        alone[from as usize] = true;
    }
}

/// Marks the nets that have a label, and as nets that stand for no other those that registers of
/// them take.
pub fn pin(own: &mut [bool], alone: &mut [bool], nets: &[Net], labels: &[NetLabel])
    requires there { All (λ net. All (λ read. read < length nets.now) (reads net.kind)) nets.now }
    requires own { length own.old ≡ length nets.now }
    requires alone { length alone.old ≡ length nets.now }
    requires labels { All (λ label. label.net < length nets.now) labels.now }
    ensures own { KeepsMarks own.old own.new }
    ensures alone { KeepsMarks alone.old alone.new }
    ensures pinned { All (λ label. IsPinned nets.now own.new alone.new label.net) labels.now }
{
    for label in labels {
        pin_net(own, alone, nets, label.net);
    }
}
