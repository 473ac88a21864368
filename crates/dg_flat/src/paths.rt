ghost use Rattle.std.specs.Prelude.{◌≡◌, ◌≤◌, true, [], length, slice_index_or, IfOk};
ghost use Rattle.dg_model.specs.Naming.{escaped};
ghost use Rattle.dg_flat.specs.Parts.{below, is_subsystem as is_subsystem_of};
ghost use Rattle.dg_flat.specs.inner.Paths.{ArePaths};
ghost use Rattle.dg_flat.specs.inner.Slots.{slot_of, HaveParents};

use crate::systems::is_subsystem;
use dg_model::{NestedBlock, Path, SystemPath, put_escaped};
use fx_io::{OutOfMemory, Sequence, Text};
use std::alloc::Global;

/// A path for each nested block.
pub type SystemPaths = Sequence<SystemPath>;

/// A name as it stands in a path.
fn escaped_name(alloc: Global, name: &Text) -> Result<Text, OutOfMemory>
    ensures { IfOk result (λ text. text ≡ escaped name.now) }
{
    let mut bytes = Vec::new(alloc);
    put_escaped(&mut bytes, name.bytes())?;
    Text::from_vec(alloc, bytes)
}

/// The path of a block of this name in a System, by the paths of the subsystems.
pub fn path_in(
    alloc: Global,
    systems: &[SystemPath],
    system: Option<u32>,
    name: &Text,
) -> Result<Path, OutOfMemory>
    requires { slot_of system ≤ length systems.now }
    ensures { IfOk result (λ path. path ≡
        below (λ block. slice_index_or systems.now block []) (escaped name.now) system) }
{
    let name = escaped_name(alloc, name)?;
    match system {
        None => Ok(Path::root(name)),
        Some(block) => Path::within(&systems[block as usize], name),
    }
}

/// The path of a block that is a subsystem; that of any other is left empty.
fn system_path(
    alloc: Global,
    empty: &SystemPath,
    systems: &[SystemPath],
    block: &NestedBlock,
) -> Result<SystemPath, OutOfMemory>
    requires { slot_of block.now.parent ≤ length systems.now }
    ensures { IfOk result (λ path. is_subsystem_of block.now.part ≡ true → path ≡
        below (λ place. slice_index_or systems.now place []) (escaped block.now.name)
        block.now.parent) }
{
    if !is_subsystem(&block.part) {
        return empty.share();
    }
    let path = path_in(alloc, systems, block.parent, &block.name)?;
    SystemPath::new(alloc, path)
}

/// The path of each subsystem; that of any other block is left empty.
pub fn system_paths(alloc: Global, blocks: &[NestedBlock]) -> Result<SystemPaths, OutOfMemory>
    requires { HaveParents blocks.now }
    ensures { IfOk result (ArePaths blocks.now (length blocks.now)) }
{
    let empty = SystemPath::new(alloc, Path::root(Text::new()))?;
    let mut paths = SystemPaths::new(alloc);
    for block in blocks {
        let path = system_path(alloc, &empty, paths.as_slice(), block)?;
        paths.push(path)?;
    }
    Ok(paths)
}
