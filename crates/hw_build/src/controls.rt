//! The control of an enabled subsystem.
ghost use Rattle.std.specs.Prelude.{◌<◌, All, IfOk, length};
ghost use Rattle.fx_type.specs.FxType.{IsType};
ghost use Rattle.hw_build.specs.inner.Controls.{PutsControl};

use crate::parts::{Word, put_comb, put_const, word_of};
use fx_io::OutOfMemory;
use fx_type::FxType;
use hw_net::{NetOp, Netlist};
use std::alloc::Global;

/// Puts in whether one of some nets is above 0, whose words are that of this type.
pub fn some_above(
    alloc: Global,
    net: &mut Netlist,
    kind: FxType,
    operands: &[u32],
) -> Result<u32, OutOfMemory>
    requires kind { IsType kind }
    requires there { All (λ operand. operand < length net.old.nets) operands.now }
    ensures { IfOk result (PutsControl net.old net.new operands.now) }
{
    let truth = Word {
        signed: false,
        width: 1,
    };
    let zero = put_const(alloc, net, word_of(kind), 0)?;
    let mut some = put_const(alloc, net, truth, 0)?;
    for operand in operands {
        let one = put_comb(alloc, net, truth, NetOp::Less, &[zero, *operand])?;
        some = put_comb(alloc, net, truth, NetOp::Or, &[some, one])?;
    }
    Ok(some)
}
