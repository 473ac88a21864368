//! The program of a checked diagram.
ghost use Rattle.std.specs.Prelude.{◌≡◌, ◌<◌, ◌+◌, ℕ, Some, length, slice_get, IfOk, OnOk};
ghost use Rattle.dg_model.specs.Attributes.{attributes_of};
ghost use Rattle.dg_model.specs.RootElements.{root_inputs};
ghost use Rattle.dg_sim.specs.Sim.{IsProgram};
ghost use Rattle.dg_sim.specs.inner.ProgramSteps.{AreShown, IsFilled};
ghost use Rattle.dg_tables.specs.Entries.{IsEntry, place_at};
ghost use Rattle.dg_tables.specs.Finding.{Finds};
ghost use Rattle.dg_tables.specs.declared.roots.Root.{Root};
ghost use Rattle.dg_sim.specs.inner.Cursors.{AreCursors};
ghost use Rattle.dg_tables.specs.Roots.{roots_of};

use crate::joining::Cursors;
use crate::program::{Cell, Cells, Memories, Program};
use crate::rules::rule_by_kind;
use crate::turn::Turn;
use dg_model::{Checked, FxTypes};
use dg_tables::{Place, Root, Starts, input_roots, lay_out, look_up, output_roots};
use fx_io::{Flags, OutOfMemory, Sizes};
use std::alloc::Global;

/// One more cell, for the entry at its place.
fn put_cell(
    checked: &Checked,
    starts: &Starts,
    roots: &[Root],
    cursors: &mut Cursors,
    program: &mut Program,
    k: u32,
) -> Result<(), OutOfMemory>
    requires roots { roots.now
        ≡ roots_of (root_inputs checked.now.diagram (attributes_of checked.now.diagram)) }
    requires filled { IsFilled checked.now.diagram (attributes_of checked.now.diagram)
        program.old k }
    requires there { k < length program.old.places }
    requires finds { Finds checked.now starts.now program.old.places }
    requires cursors { AreCursors checked.now.diagram
        (attributes_of checked.now.diagram) cursors.old }
    ensures filled { OnOk result (IsFilled checked.now.diagram
        (attributes_of checked.now.diagram) program.new (k + 1)) }
    ensures places { OnOk result (program.new.places ≡ program.old.places) }
    ensures cursors { AreCursors checked.now.diagram
        (attributes_of checked.now.diagram) cursors.new }
{
    checked.keeps_rules();
    let place = program.places.as_slice()[k as usize];
    let block = &checked.diagram().blocks.as_slice()[place.block as usize];
    let turn = Turn {
        checked,
        starts,
        cell: k,
        place,
        block,
    };
    let rule = rule_by_kind(roots, cursors, program, turn)?;
    let period = checked.period(place.block);
    program.cells.push(Cell { period, rule })
}

/// The cells of all entries.
fn fill(
    checked: &Checked,
    starts: &Starts,
    roots: &[Root],
    program: &mut Program,
) -> Result<(), OutOfMemory>
    requires roots { roots.now
        ≡ roots_of (root_inputs checked.now.diagram (attributes_of checked.now.diagram)) }
    requires filled { IsFilled checked.now.diagram (attributes_of checked.now.diagram)
        program.old 0 }
    requires finds { Finds checked.now starts.now program.old.places }
    ensures filled { OnOk result (IsFilled checked.now.diagram (attributes_of checked.now.diagram)
        program.new (length program.new.places)) }
    ensures places { OnOk result (program.new.places ≡ program.old.places) }
{
    let count = program.places.as_slice().len() as u32;
    let mut cursors = Cursors::new();
    for k in 0..count {
        put_cell(checked, starts, roots, &mut cursors, program, k)?;
    }
    Ok(())
}

/// The entries of root output elements.
fn shown_of(
    alloc: Global,
    checked: &Checked,
    starts: &Starts,
    places: &[Place],
    roots: &[Root],
) -> Result<Sizes, OutOfMemory>
    requires finds { Finds checked.now starts.now places.now }
    requires entries { (i : ℕ) (root : Root) → slice_get roots.now i ≡ Some root
        → IsEntry checked.now.diagram (attributes_of checked.now.diagram)
        (place_at root.block 1 root.element) }
    ensures { IfOk result (λ shown. AreShown places.now roots.now shown (length roots.now)) }
{
    let mut shown = Sizes::new(alloc);
    for root in roots {
        let place = Place {
            block: root.block,
            port: 1,
            element: root.element,
        };
        shown.push(look_up(checked, starts, places, place))?;
    }
    Ok(shown)
}

/// The cells of all entries, and which of them are shown.
fn put_all(
    alloc: Global,
    checked: &Checked,
    starts: &Starts,
    program: &mut Program,
) -> Result<(), OutOfMemory>
    requires filled { IsFilled checked.now.diagram (attributes_of checked.now.diagram)
        program.old 0 }
    requires finds { Finds checked.now starts.now program.old.places }
    ensures { OnOk result
        (IsProgram checked.now.diagram (attributes_of checked.now.diagram) program.new) }
{
    checked.keeps_rules();
    dg_model::root_elements_are_listed();
    let roots = input_roots(alloc, checked)?;
    fill(checked, starts, roots.as_slice(), program)?;
    let outputs = output_roots(alloc, checked, starts)?;
    let shown = shown_of(
        alloc,
        checked,
        starts,
        program.places.as_slice(),
        outputs.as_slice(),
    )?;
    program.outputs = shown;
    Ok(())
}

/// The program of a checked diagram.
///
/// # Errors
/// Want of memory.
pub fn program_of(alloc: Global, checked: &Checked) -> Result<Program, OutOfMemory>
    ensures { IfOk result (λ program.
        IsProgram checked.now.diagram (attributes_of checked.now.diagram) program) }
{
    let (starts, places) = lay_out(alloc, checked)?;
    let mut program = Program {
        places,
        cells: Cells::new(alloc),
        args: Sizes::new(alloc),
        types: FxTypes::new(alloc),
        signs: Flags::new(alloc),
        memories: Memories::new(alloc),
        outputs: Sizes::new(alloc),
    };
    let put = put_all(alloc, checked, &starts, &mut program);
    drop(starts);
    match put {
        Ok(()) => Ok(program),
        Err(wanting) => {
            drop(program);
            Err(wanting)
        }
    }
}
