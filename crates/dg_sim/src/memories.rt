//! What is kept for the rules that look back.
ghost use Rattle.std.specs.Prelude.{◌≡◌, ◌≤◌, Some, slice_get, true, IfOk};
ghost use Rattle.dg_model.specs.Attributes.{attributes_of};
ghost use Rattle.fx_type.specs.declared.decimal.Decimal.{Decimal};
ghost use Rattle.dg_model.specs.declared.kind.Kind.{Kind};
ghost use Rattle.dg_model.specs.Hits.{is_slow_to_fast};
ghost use Rattle.dg_model.specs.Wires.{period_into};
ghost use Rattle.dg_tables.specs.State.{kept_count};
ghost use Rattle.dg_sim.specs.inner.ProgramSteps.{IsControl, Moves, IsRemembered};
ghost use Rattle.dg_tables.specs.Finding.{IsRead};
ghost use Rattle.dg_sim.specs.inner.Turns.{IsMadeFor, IsTurnOf};
ghost use Rattle.dg_tables.specs.Entries.{place_at};

use crate::program::{Memory, Program, Rule};
use crate::turn::{Turn, offered_entry};
use crate::values::own_stored;
use dg_tables::{Place, kept_moves, look_up};
use fx_io::OutOfMemory;
use fx_type::Decimal;

/// The cell of the control of the enabled subsystem that holds a block.
fn control_cell<'a>(program: &Program, turn: Turn<'a>, enable: u32) -> u32
    requires turn { IsTurnOf turn program.now.places }
    requires enable { turn.block.now.enable ≡ Some enable }
    ensures { slice_get program.now.places result ≡ Some (place_at enable 1 0) }
{
    let place = Place {
        block: enable,
        port: 1,
        element: 0,
    };
    look_up(turn.checked, turn.starts, program.places.as_slice(), place)
}

/// The cell of the control that enables a block; none outside of enabled subsystems.
fn control_of<'a>(program: &Program, turn: Turn<'a>) -> Option<u32>
    requires { IsTurnOf turn program.now.places }
    ensures { IsControl turn.entry.checked.now.diagram
        (attributes_of turn.entry.checked.now.diagram) program.now.places
        turn.entry.block.now.enable result }
{
    match turn.block.enable {
        Some(enable) => Some(control_cell(program, turn, enable)),
        None => None,
    }
}

/// One more memory for an entry of a block, which keeps what its input port offers.
fn remember<'a>(
    program: &mut Program,
    turn: Turn<'a>,
    period: Option<u32>,
    control: Option<u32>,
    reset: bool,
    room: u32,
) -> Result<u32, OutOfMemory>
    requires turn { IsTurnOf turn program.old.places }
    requires read { IsRead turn.checked.now.diagram (attributes_of turn.checked.now.diagram)
        turn.place.block 1 turn.place.element }
    requires room { room ≡ kept_count turn.block.now.kind }
    requires some { 1 ≤ room }
    requires moves { Moves turn.checked.now.diagram (attributes_of turn.checked.now.diagram)
        program.old.places turn.place turn.block.now period control reset }
    ensures { IfOk result (λ m. IsRemembered turn.entry.checked.now.diagram
        (attributes_of turn.entry.checked.now.diagram) program.old program.new turn.entry.place m) }
{
    let place = turn.place;
    let from = offered_entry(turn, &program.places, 1, place.element);
    let Ok(number) = u32::try_from(program.memories.as_slice().len()) else {
        // word: a rule names its memory in 32 bits
        return Err(OutOfMemory);
    };
    program.memories.push(Memory {
        place,
        from,
        period,
        control,
        reset,
        room,
    })?;
    Ok(number)
}

/// The rule of a Delay.
pub fn delay_rule<'a>(
    program: &mut Program,
    turn: Turn<'a>,
    length: u32,
    initial: &[Decimal],
    reset: bool,
) -> Result<Rule, OutOfMemory>
    requires turn { IsTurnOf turn program.old.places }
    requires kind { turn.block.now.kind ≡ Kind.Delay length initial.now reset }
    requires some { 1 ≤ length }
    ensures { IfOk result (IsMadeFor turn.entry program.old program.new) }
{
    kept_moves();
    let control = control_of(program, turn);
    let first = own_stored(turn, initial);
    let period = turn.checked.period(turn.place.block);
    let memory = remember(program, turn, period, control, reset, length)?;
    Ok(Rule::Past {
        memory,
        age: length - 1,
        initial: first,
    })
}

/// The rule of a rate transition from slow to fast.
pub fn transition_rule<'a>(
    program: &mut Program,
    turn: Turn<'a>,
    initial: &[Decimal],
    slow: Option<u32>,
) -> Result<Rule, OutOfMemory>
    requires turn { IsTurnOf turn program.old.places }
    requires kind { (period : Decimal)
        × (turn.block.now.kind ≡ Kind.RateTransition period initial.now) }
    requires slow { slow ≡ period_into turn.checked.now.diagram
        (attributes_of turn.checked.now.diagram) turn.place.block 1 }
    requires slower { is_slow_to_fast slow
        ((attributes_of turn.checked.now.diagram).period_at turn.place.block) ≡ true }
    ensures { IfOk result (IsMadeFor turn.entry program.old program.new) }
{
    kept_moves();
    let first = own_stored(turn, initial);
    let memory = remember(program, turn, slow, None, false, 2)?;
    Ok(Rule::Slower {
        memory,
        period: slow,
        initial: first,
    })
}

/// The rule of an output port of an enabled subsystem.
pub fn enabled_output_rule<'a>(
    program: &mut Program,
    turn: Turn<'a>,
    reset: bool,
    initial: &[Decimal],
) -> Result<Rule, OutOfMemory>
    requires turn { IsTurnOf turn program.old.places }
    requires kind { turn.block.now.kind ≡ Kind.EnOut reset initial.now }
    ensures { IfOk result (IsMadeFor turn.entry program.old program.new) }
{
    kept_moves();
    let Some(enable) = turn.block.enable else {
        unreachable!();
    };
    let cell = control_cell(program, turn, enable);
    let from = offered_entry(turn, &program.places, 1, turn.place.element);
    let first = own_stored(turn, initial);
    if reset {
        return Ok(Rule::Reset {
            from,
            control: cell,
            initial: first,
        });
    }
    let period = turn.checked.period(turn.place.block);
    let memory = remember(program, turn, period, Some(cell), false, 1)?;
    Ok(Rule::Held {
        memory,
        from,
        control: cell,
        initial: first,
    })
}
