//! Operations on nets, put behind the others.
ghost use Rattle.std.specs.Prelude.{◌≡◌, length, IfOk, OnOk};
ghost use Rattle.hw_net.specs.declared.netlist.NetKind.TheVariants.{Comb};
ghost use Rattle.hw_net.specs.Growing.{with_net};

use fx_io::{OutOfMemory, Sizes};
use hw_net::{Net, NetKind, NetOp, Netlist};
use std::alloc::Global;

/// Puts in an operation on nets, in a word.
pub fn combine(
    alloc: Global,
    net: &mut Netlist,
    op: NetOp,
    reads: &[u32],
    signed: bool,
    width: u8,
) -> Result<u32, OutOfMemory>
    ensures number { IfOk result (λ number. number ≡ length net.old.nets) }
    ensures grown { OnOk result (net.new ≡ with_net net.old
        (record { signed = signed; width = width; kind = Comb op reads.now })) }
{
    let args = Sizes::from_vec(Vec::from_slice(alloc, reads)?);
    net.add(Net {
        signed,
        width,
        kind: NetKind::Comb { op, args },
    })
}
