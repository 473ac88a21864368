//! The rules of blocks that work element by element.
ghost use Rattle.std.specs.Prelude.{◌≡◌, ◌<◌, ◌≤◌, ◌++◌, ◌∷◌, [], ℕ, List, length, true, IfOk, OnOk};
ghost use Rattle.dg_model.specs.Attributes.{attributes_of};
ghost use Rattle.dg_model.specs.Equation.{IsOpOf};
ghost use Rattle.dg_model.specs.Wires.{type_into, types_into};
ghost use Rattle.dg_model.specs.Solves.{IsShown};
ghost use Rattle.dg_tables.specs.Entries.{Reads, AreEntries};
ghost use Rattle.dg_sim.specs.inner.ProgramSteps.{AreRead, is_worked};
ghost use Rattle.dg_tables.specs.Finding.{AreLines, IsRead};
ghost use Rattle.dg_tables.specs.Laws.{IsOrdered, TypesAreValid};
ghost use Rattle.dg_sim.specs.inner.Turns.{CanOffer, IsMadeFor, IsTurnOf};

use crate::program::{Program, Rule, Work};
use crate::turn::{Turn, offered_entry};
use crate::values::stored_entry;
use dg_model::{FxTypes, Kind, Op, accumulator};
use dg_tables::{Places, operations_prepare, type_of_input};
use fx_io::{Flags, OutOfMemory, Sizes};
use fx_type::FxType;

/// Puts the entry of an element that an input port of the block offers, with its type, behind the
/// arguments.
pub fn put_argument<'a>(
    turn: Turn<'a>,
    places: &Places,
    port: u32,
    element: u32,
    kind: FxType,
    args: &mut Sizes,
    types: &mut FxTypes,
) -> Result<(), OutOfMemory>
    requires offers { CanOffer turn places.now }
    requires read { IsRead turn.checked.now.diagram (attributes_of turn.checked.now.diagram)
        turn.place.block port element }
    ensures { OnOk result ((number : ℕ) × (args.new ≡ args.old ++ number ∷ [])
        × (number < turn.entry.cell) × Reads turn.entry.checked.now.diagram
        (attributes_of turn.entry.checked.now.diagram) places.now turn.entry.place.block port
        element number × (types.new ≡ types.old ++ kind ∷ [])) }
{
    let number = offered_entry(turn, places, port, element);
    args.push(number)?;
    types.push(kind)
}

/// Puts what the input ports of the block offer to the entry's element behind the arguments, with
/// their types.
fn put_inputs<'a>(
    turn: Turn<'a>,
    places: &Places,
    args: &mut Sizes,
    types: &mut FxTypes,
) -> Result<(), OutOfMemory>
    requires offers { CanOffer turn places.now }
    requires read { (port : ℕ) → 1 ≤ port → port ≤ turn.block.now.inputs
        → IsRead turn.checked.now.diagram (attributes_of turn.checked.now.diagram)
        turn.place.block port turn.place.element }
    ensures { OnOk result ((numbers : List ℕ) × (length numbers ≡ turn.entry.block.now.inputs)
        × (args.new ≡ args.old ++ numbers)
        × AreRead turn.entry.checked.now.diagram
        (attributes_of turn.entry.checked.now.diagram) places.now turn.entry.place.block
        turn.entry.place.element turn.entry.cell numbers
        × (types.new ≡ types.old ++ types_into turn.entry.checked.now.diagram
        (attributes_of turn.entry.checked.now.diagram) turn.entry.place.block
        turn.entry.block.now.inputs)) }
{
    for i in 0..turn.block.inputs {
        let kind = type_of_input(turn.checked, turn.starts, turn.place.block, i + 1);
        put_argument(turn, places, i + 1, turn.place.element, kind, args, types)?;
    }
    Ok(())
}

/// Puts signs behind the others.
fn put_signs(signs: &mut Flags, negative: &[bool]) -> Result<(), OutOfMemory>
    ensures { OnOk result (signs.new ≡ signs.old ++ negative.now) }
{
    for sign in negative {
        signs.push(*sign)?;
    }
    Ok(())
}

/// The operation of a block that works element by element.
fn op_of<'a>(turn: Turn<'a>) -> Op
    requires rules { IsOrdered turn.checked.now.diagram turn.checked.now.order }
    requires lines { AreLines turn.checked.now.diagram turn.starts.now.lines.items }
    requires shown { IsShown turn.checked.now.diagram (attributes_of turn.checked.now.diagram)
        turn.place.block turn.block.now turn.place.port turn.place.element }
    requires worked { is_worked turn.block.now.kind ≡ true }
    requires types { TypesAreValid }
    ensures { IsOpOf turn.entry.block.now.kind turn.entry.place.element
        ((attributes_of turn.entry.checked.now.diagram).param_at turn.entry.place.block)
        (type_into turn.entry.checked.now.diagram
        (attributes_of turn.entry.checked.now.diagram) turn.entry.place.block 2) result }
{
    match &turn.block.kind {
        Kind::Sum { accum, .. } => Op::Sum {
            accum: accumulator(*accum, turn.checked.param(turn.place.block)),
        },
        Kind::Gain { value, .. } => {
            let param = turn.checked.param(turn.place.block);
            let coefficient = stored_entry(value.as_slice(), turn.place.element, param);
            Op::Gain { coefficient, param }
        }
        Kind::Product => Op::Product,
        Kind::Switch {
            criterion,
            threshold,
        } => {
            let control = type_of_input(turn.checked, turn.starts, turn.place.block, 2);
            let threshold = stored_entry(threshold.as_slice(), turn.place.element, control);
            Op::Switch {
                criterion: *criterion,
                threshold,
            }
        }
        Kind::Relational { operator: by } => Op::Relational { operator: *by },
        Kind::Logic { operator: by } => Op::Logic { operator: *by },
        Kind::Convert { stored: integer } => Op::Convert { stored: *integer },
        _ => unreachable!(),
    }
}

/// The rule of a block that works element by element.
pub fn works<'a>(program: &mut Program, turn: Turn<'a>) -> Result<Rule, OutOfMemory>
    requires turn { IsTurnOf turn program.old.places }
    requires entries { AreEntries turn.checked.now.diagram
        (attributes_of turn.checked.now.diagram) program.old.places }
    requires paired { length program.old.types ≡ length program.old.args }
    requires worked { is_worked turn.block.now.kind ≡ true }
    ensures { IfOk result (IsMadeFor turn.entry program.old program.new) }
{
    operations_prepare();
    let op = op_of(turn);
    let block = turn.block;
    let negative = block.kind.signs();
    let Ok(first) = u32::try_from(program.args.as_slice().len()) else {
        // word: a rule names its arguments in 32 bits
        return Err(OutOfMemory);
    };
    let Ok(first_sign) = u32::try_from(program.signs.as_slice().len()) else {
        // word: a rule names its signs in 32 bits
        return Err(OutOfMemory);
    };
    let signs = negative.len() as u32;
    put_inputs(turn, &program.places, &mut program.args, &mut program.types)?;
    put_signs(&mut program.signs, negative)?;
    let work = Work {
        op,
        first,
        count: block.inputs,
        first_sign,
        signs,
        result: turn.checked.result(turn.place.block),
        rounding: block.rounding,
        saturate: block.saturate,
    };
    Ok(Rule::Works { work })
}
