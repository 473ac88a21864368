//! The first instance that isn't linked as it must be.
ghost use Rattle.std.specs.Prelude.{◌≡◌, IfOk, List, map};
ghost use Rattle.vl_ast.specs.declared.modules.Module.{Module};
ghost use Rattle.vl_hier.specs.Linked.{head_of};
ghost use Rattle.vl_hier.specs.inner.Tables.{AreTables};
ghost use Rattle.vl_hier.specs.inner.Tests.{IsFirstBad};

use crate::linking::is_linked;
use crate::tables::Tables;
use fx_io::{OutOfMemory, Sequence, Text};
use std::alloc::Global;
use vl_ast::{Instance, Module, begin, finish, put};

/// What begins the names of an instance's nets. The only error is want of memory.
fn head_of(alloc: Global, one: &Instance) -> Result<Text, OutOfMemory>
    ensures { IfOk result (λ head. head ≡ head_of one.now) }
{
    Text::copy(alloc, one.name.bytes())?.append(alloc, b"_")
}

fn heads_of(alloc: Global, instances: &[Instance]) -> Result<Sequence<Text>, OutOfMemory>
    ensures { IfOk result (λ heads. heads ≡ map head_of instances.now) }
{
    let mut out = begin(alloc);
    for one in instances {
        put(&mut out, head_of(alloc, one));
    }
    finish(out)
}

fn first_among<'a>(
    alloc: Global,
    tables: &Tables<'a>,
    instances: &'a [Instance],
    heads: &'a [Text],
) -> Result<Option<usize>, OutOfMemory>
    requires { heads.now ≡ map head_of instances.now }
    ensures { (below : List Module) (top : Module) → AreTables below top instances.now tables.now
        → IfOk result (λ place. IsFirstBad instances.now below top place) }
{
    for (place, one) in instances.iter().enumerate() {
        if !is_linked(alloc, tables, one, heads[place].bytes())? {
            return Ok(Some(place));
        }
    }
    Ok(None)
}

/// The place of the first instance that isn't linked as it must be. The only error is want of memory.
pub fn first_bad(
    alloc: Global,
    below: &[Module],
    top: &Module,
    instances: &[Instance],
) -> Result<Option<usize>, OutOfMemory>
    ensures { IfOk result (λ place. IsFirstBad instances.now below.now top.now place) }
{
    let heads = heads_of(alloc, instances)?;
    let tables = Tables::of(alloc, below, top, instances)?;
    first_among(alloc, &tables, instances, heads.as_slice())
}
