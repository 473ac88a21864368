ghost use Rattle.std.specs.Prelude.{◌≡◌, ◌<◌, ◌≤◌, length, slice_get, IsTrue, IsFalse, Some};
ghost use Rattle.dg_model.specs.Limits.{most_blocks};
ghost use Rattle.dg_flat.specs.Rules.{KeepsEnable, MayStandAt};
ghost use Rattle.dg_flat.specs.Parts.{enable_port, control_of, system_around};
ghost use Rattle.dg_flat.specs.inner.Slots.{slot_of, HaveParents};
ghost use Rattle.dg_flat.specs.inner.Systems.{AreSystems};
ghost use Rattle.dg_flat.specs.inner.Verdict.{IsFirst};

use crate::kinds::may_stand;
use crate::systems::{Systems, slot};
use dg_model::{Nested, NestedBlock, Part};

impl Systems {
    /// The first EnablePort of a System.
    pub fn enable(&self, blocks: &[NestedBlock], system: Option<u32>) -> Option<u32>
        requires systems { AreSystems blocks.now self.now }
        requires there { slot_of system ≤ length blocks.now }
        ensures { result ≡ enable_port blocks.now system }
    {
        self.enables[slot(system)]
    }

    /// The EnablePort that a System is enabled by.
    pub fn control(&self, blocks: &[NestedBlock], system: Option<u32>) -> Option<u32>
        requires systems { AreSystems blocks.now self.now }
        requires there { slot_of system ≤ length blocks.now }
        ensures { result ≡ control_of blocks.now system }
    {
        self.controls[slot(system)]
    }
}

/// The System around one.
fn around(blocks: &[NestedBlock], system: Option<u32>) -> Option<u32>
    requires { slot_of system ≤ length blocks.now }
    ensures { result ≡ system_around blocks.now system }
{
    match system {
        Some(block) => blocks[block as usize].parent,
        None => None,
    }
}

/// Whether a block keeps the rule of enabled subsystems.
fn keeps_enable(blocks: &[NestedBlock], systems: &Systems, place: u32, block: &NestedBlock) -> bool
    requires parents { HaveParents blocks.now }
    requires systems { AreSystems blocks.now systems.now }
    requires there { slice_get blocks.now place ≡ Some block.now }
    ensures kept { IsTrue result → MayStandAt blocks.now place block.now.parent block.now.part }
    ensures broken { IsFalse result
        → ¬ MayStandAt blocks.now place block.now.parent block.now.part }
{
    match &block.part {
        Part::Plain(plain) => may_stand(&plain.kind, systems.control(blocks, block.parent)),
        Part::In(_, _) | Part::Out(_, _) | Part::SubSystem => true,
        Part::Enable { .. } => {
            systems.enable(blocks, block.parent) == Some(place)
                && systems
                    .control(blocks, around(blocks, block.parent))
                    .is_none()
        }
    }
}

/// The first block that breaks the rule of enabled subsystems.
pub fn first_misplaced(systems: &Systems, nested: &Nested) -> Option<u32>
    requires few { length nested.now.blocks ≤ most_blocks }
    requires parents { HaveParents nested.now.blocks }
    requires systems { AreSystems nested.now.blocks systems.now }
    ensures { IsFirst nested.now KeepsEnable result }
{
    let blocks = nested.blocks.as_slice();
    for (place, block) in blocks.iter().enumerate() {
        if !keeps_enable(blocks, systems, place as u32, block) {
            return Some(place as u32);
        }
    }
    None
}
