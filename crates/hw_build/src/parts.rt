//! Nets one by one, put behind the others.
ghost use Rattle.std.specs.Prelude.{◌≡◌, [], length, IfOk, OnOk};
ghost use Rattle.fx_type.specs.FxType.{is_signed, width_of};
ghost use Rattle.hw_net.specs.declared.netlist.NetKind.TheVariants.{Comb};
ghost use Rattle.hw_net.specs.declared.netlist.NetOp.TheVariants.{Const};
ghost use Rattle.hw_net.specs.Growing.{with_net};

use fx_io::{OutOfMemory, Sizes};
use fx_type::FxType;
use hw_net::{Net, NetKind, NetOp, Netlist};
use std::alloc::Global;

/// A word: how many bits it has, and whether its numbers may be negative.
#[derive(Clone, Copy)]
pub struct Word {
    pub signed: bool,
    pub width: u8,
}

/// The word of a type.
pub fn word_of(kind: FxType) -> Word
    ensures { result ≡ record { signed = is_signed kind; width = width_of kind } }
{
    Word {
        signed: kind.is_signed(),
        width: kind.width(),
    }
}

/// Puts in an operation on nets, in a word.
pub fn put_comb(
    alloc: Global,
    net: &mut Netlist,
    word: Word,
    op: NetOp,
    reads: &[u32],
) -> Result<u32, OutOfMemory>
    ensures number { IfOk result (λ number. number ≡ length net.old.nets) }
    ensures grown { OnOk result (net.new ≡ with_net net.old
        (record { signed = word.signed; width = word.width; kind = Comb op reads.now })) }
{
    let args = Sizes::from_vec(Vec::from_slice(alloc, reads)?);
    net.add(Net {
        signed: word.signed,
        width: word.width,
        kind: NetKind::Comb { op, args },
    })
}

/// Puts in a constant.
pub fn put_const(
    alloc: Global,
    net: &mut Netlist,
    word: Word,
    value: i128,
) -> Result<u32, OutOfMemory>
    ensures number { IfOk result (λ number. number ≡ length net.old.nets) }
    ensures grown { OnOk result (net.new ≡ with_net net.old
        (record { signed = word.signed; width = word.width; kind = Comb (Const value) [] })) }
{
    put_comb(alloc, net, word, NetOp::Const(value), &[])
}
