ghost use Rattle.std.specs.Prelude.{◌≡◌, ◌≤◌, ◌<◌, length, slice_index_or, IfOk};
ghost use Rattle.dg_model.specs.Limits.{most_blocks};
ghost use Rattle.dg_model.specs.Sound.{IsSound};
ghost use Rattle.dg_flat.specs.Groups.{AreGroups, group_in, is_root_subsystem as is_root_subsystem_of, own_group};
ghost use Rattle.dg_flat.specs.inner.Groups.{AreNestedGroups};
ghost use Rattle.dg_flat.specs.inner.Slots.{slot_of, HaveParents};

use crate::systems::is_subsystem;
use dg_model::{Nested, NestedBlock};
use fx_io::OutOfMemory;
use std::alloc::Global;

/// Whether the block is a subsystem of the root.
fn is_root_subsystem(block: &NestedBlock) -> bool
    ensures { result ≡ is_root_subsystem_of block.now }
{
    is_subsystem(&block.part) && block.parent.is_none()
}

/// The group of a block, by those of the blocks before it and the number of the root's subsystems among
/// them.
fn group_behind(groups: &[u32], block: &NestedBlock, count: u32) -> u32
    requires there { slot_of block.now.parent ≤ length groups.now }
    requires few { count < most_blocks }
    ensures { result ≡ group_in (own_group count block.now.part)
        (λ place. slice_index_or groups.now place 0) block.now.parent }
{
    match block.parent {
        Some(system) => groups[system as usize],
        None => {
            if is_subsystem(&block.part) {
                count + 1
            } else {
                0
            }
        }
    }
}

/// The group of each nested block.
fn nested_groups(alloc: Global, blocks: &[NestedBlock]) -> Result<Vec<u32>, OutOfMemory>
    requires few { length blocks.now ≤ most_blocks }
    requires parents { HaveParents blocks.now }
    ensures { IfOk result (λ groups. AreNestedGroups blocks.now (length blocks.now) groups.items) }
{
    let mut groups = Vec::new(alloc);
    let mut count = 0;
    for block in blocks {
        let group = group_behind(groups.as_slice(), block, count);
        groups.push(group)?;
        if is_root_subsystem(block) {
            count += 1;
        }
    }
    Ok(groups)
}

/// For each block of the flat list the number, from 1 and in the order of the file, of the subsystem of the
/// root in which it stands, at any depth; 0 where it stands in the root. The only error is want of memory.
pub fn groups(alloc: Global, nested: &Nested) -> Result<Vec<u32>, OutOfMemory>
    requires { IsSound nested.now }
    ensures { IfOk result (λ groups. AreGroups nested.now.blocks groups.items) }
{
    let blocks = nested.blocks.as_slice();
    let all = nested_groups(alloc, blocks)?;
    let mut groups = Vec::new(alloc);
    for (place, block) in blocks.iter().enumerate() {
        if !is_subsystem(&block.part) {
            groups.push(all[place])?;
        }
    }
    Ok(groups)
}
