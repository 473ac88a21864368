//! Which nets are Resizes, and so can be given an argument.
ghost use Rattle.std.specs.Prelude.{◌≡◌, ◌↔◌, ℕ, List, IsTrue};
ghost use Rattle.hw_net.specs.declared.netlist.NetKind.TheVariants.{Comb};
ghost use Rattle.hw_net.specs.declared.netlist.NetOp.TheVariants.{Resize};
ghost use Rattle.hw_net.specs.Growing.{IsResize};

use hw_net::{NetKind, NetOp, Netlist};

/// Whether the net of a number is a Resize.
pub fn is_resize(net: &Netlist, number: u32) -> bool
    ensures { IsTrue result ↔ IsResize net.now.nets number }
{
    match net.nets().get(number as usize) {
        Some(net) => resizes(&net.kind),
        None => false,
    }
}

/// Whether a net is a Resize.
fn resizes(kind: &NetKind) -> bool
    ensures { IsTrue result ↔ ((args : List ℕ) × (kind.now ≡ Comb Resize args)) }
{
    matches!(
        kind,
        NetKind::Comb {
            op: NetOp::Resize,
            ..
        }
    )
}
