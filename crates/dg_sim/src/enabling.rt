//! The rule of the control of an enabled subsystem.
ghost use Rattle.std.specs.Prelude.{◌≡◌, ◌<◌, ◌++◌, ℕ, List, length, IfOk, OnOk};
ghost use Rattle.fx_type.specs.declared.kind.FxType.{FxType};
ghost use Rattle.dg_model.specs.Attributes.{attributes_of};
ghost use Rattle.dg_model.specs.Wires.{width_into};
ghost use Rattle.dg_sim.specs.inner.ProgramSteps.{AreElements};
ghost use Rattle.dg_sim.specs.inner.Turns.{CanOffer, IsMadeFor, IsTurnOf};
ghost use Rattle.dg_model.specs.declared.kind.Kind.{Kind};

use crate::program::{Program, Rule};
use crate::turn::Turn;
use crate::working::put_argument;
use dg_model::FxTypes;
use dg_tables::{Places, width_of_input};
use fx_io::{OutOfMemory, Sizes};
use fx_type::FxType;

/// Puts all elements that input port 1 of the block offers behind the arguments.
fn put_elements<'a>(
    turn: Turn<'a>,
    places: &Places,
    width: u32,
    args: &mut Sizes,
    types: &mut FxTypes,
) -> Result<(), OutOfMemory>
    requires offers { CanOffer turn places.now }
    requires width { width ≡ width_into turn.checked.now.diagram
        (attributes_of turn.checked.now.diagram) turn.place.block 1 }
    ensures { OnOk result ((numbers : List ℕ) × (length numbers ≡ width)
        × (args.new ≡ args.old ++ numbers)
        × AreElements turn.entry.checked.now.diagram
        (attributes_of turn.entry.checked.now.diagram) places.now turn.entry.place.block
        turn.entry.cell numbers × (more : List FxType) × (types.new ≡ types.old ++ more)
        × (length more ≡ width)) }
{
    for element in 0..width {
        put_argument(turn, places, 1, element, FxType::Logical, args, types)?;
    }
    Ok(())
}

/// The rule of the control of an enabled subsystem.
pub fn above<'a>(program: &mut Program, turn: Turn<'a>) -> Result<Rule, OutOfMemory>
    requires kind { turn.block.now.kind ≡ Kind.EnableTest }
    requires turn { IsTurnOf turn program.old.places }
    ensures { IfOk result (IsMadeFor turn.entry program.old program.new) }
{
    let width = width_of_input(turn.checked, turn.starts, turn.place.block, 1);
    let Ok(first) = u32::try_from(program.args.as_slice().len()) else {
        // word: a rule names its arguments in 32 bits
        return Err(OutOfMemory);
    };
    put_elements(
        turn,
        &program.places,
        width,
        &mut program.args,
        &mut program.types,
    )?;
    Ok(Rule::Above {
        first,
        count: width,
    })
}
