//! The types that hold every product of blocks that multiply.
ghost use Rattle.std.specs.Prelude.{◌≡◌, ◌≤◌, true, Some, slice_get};
ghost use Rattle.fx_type.specs.declared.kind.FxType.{FxType};
ghost use Rattle.fx_type.specs.FullType.{IsFullProduct};
ghost use Rattle.dg_model.specs.Attributes.{attributes_of};
ghost use Rattle.dg_model.specs.Library.{row_of};
ghost use Rattle.dg_model.specs.Wires.{type_into as type_into_of};
ghost use Rattle.hw_sched.specs.Slots.{right_of};

use crate::operands::line_into;
use dg_model::{Block, Checked, FullRule};
use fx_type::{FxType, full_product};

/// The type of what a block reads at an input port, from 1.
pub fn type_into(checked: &Checked, block: u32, port: u32, one: &Block) -> FxType
    requires is { slice_get checked.now.diagram.blocks block ≡ Some one.now }
    requires from { 1 ≤ port }
    requires to { port ≤ one.now.inputs }
    ensures { result ≡ type_into_of checked.now.diagram (attributes_of checked.now.diagram) block
        port }
{
    checked.keeps_rules();
    checked.result(line_into(checked, block, port, one).from)
}

/// The type of the second operand of a block: of its coefficients or of its second input, Logical
/// where it doesn't multiply.
fn second_type(checked: &Checked, block: u32, one: &Block) -> FxType
    requires { slice_get checked.now.diagram.blocks block ≡ Some one.now }
    ensures { result ≡ right_of checked.now.diagram (attributes_of checked.now.diagram) block
        (Some one.now) }
{
    checked.keeps_rules();
    match one.kind.full() {
        FullRule::FullScaled { .. } => checked.param(block),
        FullRule::FullProduct => type_into(checked, block, 2, one),
        FullRule::NoFull
        | FullRule::FullSum { .. }
        | FullRule::UnionOfTwo
        | FullRule::UnionOfEnds => FxType::Logical,
    }
}

/// The type that holds every product of a block that multiplies.
pub fn full_type(checked: &Checked, block: u32, one: &Block) -> FxType
    requires block { slice_get checked.now.diagram.blocks block ≡ Some one.now }
    requires multiplies { (row_of one.now.kind).hardware.multiplies ≡ true }
    ensures { IsFullProduct (type_into_of checked.now.diagram (attributes_of checked.now.diagram)
        block 1) (right_of checked.now.diagram (attributes_of checked.now.diagram) block
        (Some one.now)) result }
{
    checked.keeps_rules();
    dg_tables::operations_prepare();
    fx_round::storing_gives_one();
    let left = type_into(checked, block, 1, one);
    let right = second_type(checked, block, one);
    full_product(left, right).unwrap()
}
