//! The rules of cells, kind by kind.
ghost use Rattle.std.specs.Prelude.{◌≡◌, ℕ, Some, length, slice_get, IfOk};
ghost use Rattle.dg_model.specs.Attributes.{attributes_of};
ghost use Rattle.dg_tables.specs.Entries.{AreEntries};
ghost use Rattle.dg_sim.specs.inner.Cursors.{AreCursors};
ghost use Rattle.dg_sim.specs.inner.Turns.{IsMadeFor, IsTurnOf};
ghost use Rattle.dg_tables.specs.Roots.{roots_of};
ghost use Rattle.dg_model.specs.RootElements.{root_inputs};
ghost use Rattle.dg_model.specs.declared.kind.Kind.{Kind};

use crate::columns::find_root;
use crate::enabling::above;
use crate::handing::{hand_on, transition};
use crate::joining::{Cursors, spread};
use crate::memories::{delay_rule, enabled_output_rule};
use crate::program::{Program, Rule};
use crate::turn::Turn;
use crate::values::own_stored;
use crate::working::works;
use dg_model::Kind;
use dg_tables::{Root, operations_prepare};
use fx_io::OutOfMemory;
use fx_type::Decimal;

/// The rule of a Constant.
fn constant<'a>(program: &Program, turn: Turn<'a>, value: &[Decimal]) -> Rule
    requires turn { IsTurnOf turn program.now.places }
    requires kind { turn.block.now.kind ≡ Kind.Constant value.now }
    ensures { IsMadeFor turn.entry program.now program.now result }
{
    let value = own_stored(turn, value);
    Rule::Fixed { value }
}

/// The rule of a root input port.
fn from_row<'a>(roots: &[Root], program: &Program, turn: Turn<'a>, number: u32) -> Rule
    requires roots { roots.now ≡ roots_of (root_inputs turn.checked.now.diagram
        (attributes_of turn.checked.now.diagram)) }
    requires turn { IsTurnOf turn program.now.places }
    requires kind { (width : ℕ) × (turn.block.now.kind ≡ Kind.Inport number width) }
    ensures { IsMadeFor turn.entry program.now program.now result }
{
    dg_model::root_elements_are_listed();
    let root = Root {
        number,
        block: turn.place.block,
        element: turn.place.element,
    };
    let column = find_root(roots, root);
    Rule::Input { column }
}

/// The rule of a turn, with what the program needs for it, kind by kind.
pub fn rule_by_kind<'a>(
    roots: &[Root],
    cursors: &mut Cursors,
    program: &mut Program,
    turn: Turn<'a>,
) -> Result<Rule, OutOfMemory>
    requires roots { roots.now ≡ roots_of (root_inputs turn.checked.now.diagram
        (attributes_of turn.checked.now.diagram)) }
    requires turn { IsTurnOf turn program.old.places }
    requires entries { AreEntries turn.checked.now.diagram
        (attributes_of turn.checked.now.diagram) program.old.places }
    requires paired { length program.old.types ≡ length program.old.args }
    requires cursors { AreCursors turn.checked.now.diagram
        (attributes_of turn.checked.now.diagram) cursors.old }
    ensures made { IfOk result (IsMadeFor turn.entry program.old program.new) }
    ensures cursors { AreCursors turn.entry.checked.now.diagram
        (attributes_of turn.entry.checked.now.diagram) cursors.new }
{
    match &turn.block.kind {
        Kind::Inport { number, .. } => Ok(from_row(roots, program, turn, *number)),
        Kind::Outport { .. } | Kind::Pass { .. } => {
            Ok(hand_on(program, turn, 1, turn.place.element))
        }
        Kind::Constant { value } => Ok(constant(program, turn, value.as_slice())),
        Kind::Ground => Ok(Rule::Fixed { value: 0 }),
        Kind::Mux { .. } | Kind::Demux { .. } => Ok(spread(cursors, program, turn)),
        Kind::RateTransition { initial, .. } => transition(program, turn, initial.as_slice()),
        Kind::EnableTest => above(program, turn),
        Kind::Delay {
            length,
            initial,
            reset,
        } => delay_rule(program, turn, *length, initial.as_slice(), *reset),
        Kind::EnOut { reset, initial } => enabled_output_rule(
            program,
            turn,
            *reset,
            initial.as_slice(),
        ),
        Kind::Sum { .. }
        | Kind::Gain { .. }
        | Kind::Product
        | Kind::Switch { .. }
        | Kind::Relational { .. }
        | Kind::Logic { .. }
        | Kind::Convert { .. } => works(program, turn),
        Kind::Terminator => unreachable!(),
    }
}
