//! What holds the inputs, and what holds the outputs back.
ghost use Rattle.std.specs.Prelude.{◌≡◌, flat_map, IfOk};
ghost use Rattle.vl_ast.specs.Listing.{Lists};
ghost use Rattle.st_wrap.specs.inner.Columns.{held_driven, items_for, late_declared, late_driven};
ghost use Rattle.st_wrap.specs.inner.Columns.{stage_name};

use crate::columns::Column;
use crate::expressions::{assign, moving, name_of, plain};
use crate::names::{held_name, inner_name, late_name};
use fx_io::Text;
use std::alloc::Global;
use vl_ast::{
    Listing, Made, ModItem, choose, named, put_assignment, put_declaration, put_register,
};

/// What the wrapper has of each column.
#[derive(Clone, Copy)]
pub enum Part {
    /// The register that holds an input.
    Held,
    /// What drives the core's input, and what holds it.
    HeldDriven,
    /// The registers that hold an output back.
    Late,
    /// What drives them, and the output's port.
    LateDriven,
}

/// Puts what the core's input shows, the port's in a sample's first clock and then what was held of it,
/// and what holds it.
fn drive_input(alloc: Global, out: &mut Listing<ModItem>, column: &Column)
    ensures { Lists out.old out.new (held_driven column.now) }
{
    let name = column.name.bytes();
    let test = name_of(alloc, b"fx_begin");
    let held = named(held_name(alloc, name));
    let shown = choose(alloc, test, name_of(alloc, name), held);
    let core = inner_name(alloc, column.inner.bytes());
    put_assignment(out, core, shown);
    put_register(
        out,
        held_name(alloc, name),
        plain(column.width, 0),
        moving(alloc, b"fx_begin"),
        name_of(alloc, name),
    );
}

/// The name of an output of so many samples ago.
fn stage_name(alloc: Global, column: &Column, samples: u64) -> Made<Text>
    ensures { IfOk result (λ name. name ≡ stage_name column.now samples) }
{
    if samples == 0 {
        return inner_name(alloc, column.inner.bytes());
    }
    late_name(alloc, column.name.bytes(), samples)
}

fn declare_output(alloc: Global, out: &mut Listing<ModItem>, column: &Column)
    ensures { Lists out.old out.new (late_declared column.now) }
{
    for place in 0..column.late {
        let name = late_name(alloc, column.name.bytes(), place + 1);
        put_declaration(out, true, column.signed, column.width, name);
    }
}

fn drive_output(alloc: Global, out: &mut Listing<ModItem>, column: &Column)
    ensures { Lists out.old out.new (late_driven column.now) }
{
    let name = column.name.bytes();
    for place in 0..column.late {
        put_register(
            out,
            late_name(alloc, name, place + 1),
            plain(column.width, 0),
            moving(alloc, b"fx_end"),
            named(stage_name(alloc, column, place)),
        );
    }
    let shown = named(stage_name(alloc, column, column.late));
    assign(alloc, out, name, shown);
}

/// Puts a part of a column.
fn put_part(alloc: Global, out: &mut Listing<ModItem>, part: Part, column: &Column)
    ensures { Lists out.old out.new (items_for part column.now) }
{
    match part {
        Part::Held => {
            let name = held_name(alloc, column.name.bytes());
            put_declaration(out, true, column.signed, column.width, name);
        }
        Part::HeldDriven => drive_input(alloc, out, column),
        Part::Late => declare_output(alloc, out, column),
        Part::LateDriven => drive_output(alloc, out, column),
    }
}

/// Puts a part of each column.
pub fn put_parts(alloc: Global, out: &mut Listing<ModItem>, part: Part, columns: &[Column])
    ensures { Lists out.old out.new (flat_map (items_for part) columns.now) }
{
    for column in columns {
        put_part(alloc, out, part, column);
    }
}
