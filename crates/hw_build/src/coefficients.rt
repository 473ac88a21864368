//! The second operands of shared multiplications: nets of coefficients, or what blocks are offered.
ghost use Rattle.std.specs.Prelude.{◌≡◌, ◌<◌, true, IfOk, OnOk, Some, length, slice_get};
ghost use Rattle.fx_type.specs.FxType.{IsType};
ghost use Rattle.dg_model.specs.Attributes.{attributes_of};
ghost use Rattle.dg_model.specs.Equation.{StoresEntry};
ghost use Rattle.dg_model.specs.Library.{row_of};
ghost use Rattle.dg_model.specs.Wires.{repeated};
ghost use Rattle.hw_build.specs.inner.Factors.{AddsConstants, IsCoefficient, IsSecond};
ghost use Rattle.hw_build.specs.inner.Operands.{offered_at};

use crate::firsts::place_in;
use crate::operands::Operands;
use crate::parts::{put_const, word_of};
use dg_model::{Block, Checked};
use fx_io::OutOfMemory;
use fx_type::{Decimal, FxType};
use hw_net::Netlist;
use std::alloc::Global;

/// The coefficient of an element: the entry of a list parameter, stored in a type.
pub fn coefficient(list: &[Decimal], element: u32, kind: FxType) -> i128
    requires valid { IsType kind }
    requires there { repeated (length list.now) element < length list.now }
    ensures { StoresEntry list.now element kind result }
{
    let decimal = list[place_in(list.len(), element)];
    fx_round::to_stored(decimal, kind)
}

/// Puts in a net for the coefficient of an element.
fn put_coefficient(
    alloc: Global,
    net: &mut Netlist,
    list: &[Decimal],
    element: u32,
    kind: FxType,
) -> Result<u32, OutOfMemory>
    requires valid { IsType kind }
    requires there { repeated (length list.now) element < length list.now }
    ensures is { IfOk result (λ number.
        IsCoefficient net.old net.new list.now element kind number) }
    ensures adds { OnOk result (AddsConstants net.old net.new) }
{
    let value = coefficient(list, element, kind);
    put_const(alloc, net, word_of(kind), value)
}

/// The second operand of an element of a block that multiplies: that of its second input, or its
/// coefficient, whose net is put in.
pub fn second_of(
    alloc: Global,
    net: &mut Netlist,
    checked: &Checked,
    operands: &Operands,
    block: u32,
    one: &Block,
    element: u32,
) -> Result<u32, OutOfMemory>
    requires block { slice_get checked.now.diagram.blocks block ≡ Some one.now }
    requires multiplies { (row_of one.now.kind).hardware.multiplies ≡ true }
    requires element { element < (attributes_of checked.now.diagram).width_at block 1 }
    ensures is { IfOk result (λ number. IsSecond checked.now.diagram
        (offered_at checked.now.diagram operands.now) net.old net.new block element
        (row_of one.now.kind).types.full number) }
    ensures adds { OnOk result (AddsConstants net.old net.new) }
{
    checked.keeps_rules();
    dg_tables::operations_prepare();
    match one.kind.list() {
        Some(coefficients) => {
            let kind = checked.param(block);
            put_coefficient(alloc, net, coefficients, element, kind)
        }
        None => Ok(operands.at(checked, block, 2, element)),
    }
}
