//! A choice between two nets.
ghost use Rattle.std.specs.Prelude.{◌∷◌, [], IfOk, OnOk};
ghost use Rattle.hw_lines.specs.Register.{IsThere};
ghost use Rattle.hw_share.specs.inner.Parts.{Grows, IsChoosing};
ghost use Rattle.hw_share.specs.inner.Choices.{HaveOneWord, IsChoiceAt};

use crate::combining::combine;
use fx_io::OutOfMemory;
use hw_net::{Net, NetOp, Netlist};
use std::alloc::Global;

/// Puts in a net that shows one net where a third isn't 0, and else the other.
pub fn choose(
    alloc: Global,
    net: &mut Netlist,
    test: u32,
    chosen: u32,
    other: u32,
) -> Result<u32, OutOfMemory>
    requires test { IsThere net.old test }
    requires word { HaveOneWord net.old chosen other }
    ensures chosen { IfOk result (λ number.
        IsChoiceAt net.old net.new test chosen other number) }
    ensures grown { OnOk result (Grows net.old net.new (test ∷ chosen ∷ other ∷ [])
        (IsChoosing (λ frame. ⊥)) 0) }
{
    let Net { signed, width, .. } = &net.nets()[chosen as usize];
    let (signed, width) = (*signed, *width);
    combine(
        alloc,
        net,
        NetOp::Choose,
        &[test, chosen, other],
        signed,
        width,
    )
}
