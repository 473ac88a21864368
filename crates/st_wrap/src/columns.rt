//! The columns of the core, each with the name of the wrapper's port.
ghost use Rattle.std.specs.Prelude.{◌≡◌, filter, map, IfOk};
ghost use Rattle.std.specs.List.{zip};
ghost use Rattle.vl_ast.specs.Control.{is_stallable};
ghost use Rattle.vl_ast.specs.Attributes.{clocks_of};
ghost use Rattle.st_wrap.specs.inner.Columns.{column_of, is_column, output_column};

use crate::pace::samples_late;
use fx_io::{Sequence, Text};
use std::alloc::Global;
use vl_ast::{Made, Module, Port, begin, both, clocks_of, finish, put};
use vl_check::{carries, is_stallable};

/// A port of the core that carries numbers.
#[derive(Drop)]
pub struct Column {
    /// The core's name of it.
    pub inner: Text,
    /// The name of the wrapper's port.
    pub name: Text,
    pub signed: bool,
    pub width: u32,
    /// By how many samples an output is held back.
    pub late: u64,
}

/// Columns in order.
pub type Columns = Sequence<Column>;

/// The column of a port with this name.
fn column_for(alloc: Global, port: &Port, name: &Text, late: u64) -> Made<Column>
    ensures { IfOk result (λ column. column ≡ column_of late (port.now, name.now)) }
{
    let inner = Text::copy(alloc, port.name.bytes());
    let (inner, name) = both(inner, Text::copy(alloc, name.bytes()))?;
    Ok(Column {
        inner,
        name,
        signed: port.signed,
        width: port.width,
        late,
    })
}

/// The inputs, or else the outputs, in order, with these names. Each is held back until the one that
/// comes so many samples late.
pub fn columns(
    alloc: Global,
    core: &Module,
    input: bool,
    latest: u64,
    names: &[Text],
) -> Made<Columns>
    ensures { IfOk result (λ columns. columns ≡ map (output_column (clocks_of core.now) latest)
        (zip (filter (is_column input (is_stallable core.now)) core.now.ports) names.now)) }
{
    let stalls = is_stallable(core);
    let cycles = clocks_of(core);
    let mut out = begin(alloc);
    let mut left = names;
    for port in core.ports.as_slice() {
        if carries(port, stalls, input) {
            if let Some((name, others)) = left.split_first() {
                let late = latest.saturating_sub(samples_late(cycles, port));
                put(&mut out, column_for(alloc, port, name, late));
                left = others;
            }
        }
    }
    finish(out)
}
