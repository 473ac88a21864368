//! The products of shared operations.
ghost use Rattle.std.specs.Prelude.{◌≡◌, ◌<◌, IfOk, length};
ghost use Rattle.hw_build.specs.inner.BuildSteps.{CanBuild};
ghost use Rattle.hw_build.specs.inner.DesignTimes.{times_for};
ghost use Rattle.hw_build.specs.inner.Factors.{OffersWords};
ghost use Rattle.hw_build.specs.inner.MultiplierStep.{AddsProducts};
ghost use Rattle.hw_build.specs.inner.Operands.{offered_at};
ghost use Rattle.hw_build.specs.inner.ResultNets.{AreProducts, product_at};

use crate::design::Design;
use crate::operands::Operands;
use crate::shared::gather;
use fx_io::{OutOfMemory, Sizes};
use hw_net::Netlist;
use hw_share::units;
use std::alloc::Global;

/// What shared multipliers give.
#[derive(Drop)]
pub struct Products {
    /// By block, the number of its first operation, if its operations are shared.
    pub firsts: Vec<Option<u32>>,
    /// By operation, the net of its result.
    pub results: Sizes,
}

impl Products {
    /// The net that has the product of an element, none where its block isn't shared.
    pub fn at(&self, block: u32, element: u32) -> Option<u32>
        requires { block < length self.now.firsts.items }
        ensures { result ≡ product_at self.now block element }
    {
        let Some(first) = self.firsts[block as usize] else {
            return None;
        };
        let place = first as usize + element as usize;
        self.results.as_slice().get(place).copied()
    }
}

/// Puts in the multipliers that operations share, with a register for the product of each operation.
/// Source: own; HDL Coder, resource sharing.
pub fn products_of<'a>(
    alloc: Global,
    net: &mut Netlist,
    design: Design<'a>,
    operands: &Operands,
) -> Result<Products, OutOfMemory>
    requires can { CanBuild design }
    requires cycles { net.old.cycles ≡ design.plan.now.cycles }
    requires words { OffersWords design.checked.now.diagram design.plan.now
        (offered_at design.checked.now.diagram operands.now) net.old }
    ensures which { IfOk result
        (AreProducts design.entry.checked.now.diagram design.entry.plan.now) }
    ensures adds { IfOk result (AddsProducts design.entry.checked.now.diagram
        design.entry.plan.now (times_for design.entry)
        (offered_at design.entry.checked.now.diagram operands.now) net.old net.new) }
{
    design.checked.keeps_rules();
    dg_tables::operations_prepare();
    fx_round::storing_gives_one();
    dg_model::edges_stand_by_port();
    hw_sched::operations_are_served();
    hw_sched::periods_are_above();
    hw_sched::ready_fits();
    hw_sched::slots_differ();
    hw_sched::units_are_used();
    let mut operations = Vec::new(alloc);
    let firsts = gather(alloc, net, design, operands, &mut operations)?;
    let shared = units(alloc, net, operations.as_slice())?;
    let results = shared.results;
    Ok(Products { firsts, results })
}
