//! Rules that hand on the value of another cell.
ghost use Rattle.std.specs.Prelude.{◌≡◌, IfOk};
ghost use Rattle.fx_type.specs.declared.decimal.Decimal.{Decimal};
ghost use Rattle.dg_model.specs.Attributes.{attributes_of};
ghost use Rattle.dg_sim.specs.inner.ProgramSteps.{HandsOn};
ghost use Rattle.dg_tables.specs.Finding.{Finds, IsRead, ReadsNow};
ghost use Rattle.dg_sim.specs.inner.Turns.{IsMadeFor, IsTurnOf};
ghost use Rattle.dg_model.specs.declared.kind.Kind.{Kind};

use crate::memories::transition_rule;
use crate::program::{Program, Rule};
use crate::turn::{Turn, offered_entry};
use dg_model::is_slow_to_fast;
use dg_tables::period_of_input;
use fx_io::OutOfMemory;
use fx_type::Decimal;

/// The rule of a block that hands on what an input port offers to an element.
pub fn hand_on<'a>(program: &Program, turn: Turn<'a>, port: u32, element: u32) -> Rule
    requires hands { HandsOn turn.checked.now.diagram (attributes_of turn.checked.now.diagram)
        turn.place port element }
    requires finds { Finds turn.checked.now turn.starts.now program.now.places }
    requires now { ReadsNow turn.checked.now program.now.places turn.cell turn.place.block }
    requires read { IsRead turn.checked.now.diagram (attributes_of turn.checked.now.diagram)
        turn.place.block port element }
    ensures { IsMadeFor turn.entry program.now program.now result }
{
    let from = offered_entry(turn, &program.places, port, element);
    Rule::Same { from }
}

/// The rule of a rate transition.
pub fn transition<'a>(
    program: &mut Program,
    turn: Turn<'a>,
    initial: &[Decimal],
) -> Result<Rule, OutOfMemory>
    requires turn { IsTurnOf turn program.old.places }
    requires kind { (period : Decimal)
        × (turn.block.now.kind ≡ Kind.RateTransition period initial.now) }
    ensures { IfOk result (IsMadeFor turn.entry program.old program.new) }
{
    let slow = period_of_input(turn.checked, turn.starts, turn.place.block, 1);
    let own = turn.checked.period(turn.place.block);
    if is_slow_to_fast(slow, own) {
        transition_rule(program, turn, initial, slow)
    } else {
        Ok(hand_on(program, turn, 1, turn.place.element))
    }
}
