ghost use Rattle.std.specs.Prelude.{◌≡◌, ◌<◌, length, IfOk, IfErr, OnOk};
ghost use Rattle.dg_model.specs.Faults.{fault_of, IsRefusal};
ghost use Rattle.dg_model.specs.Sound.{IsSound};
ghost use Rattle.dg_model.specs.Wired.{IsWired};
ghost use Rattle.dg_model.specs.declared.fault.Shown.TheVariants.{Nothing};
ghost use Rattle.dg_flat.specs.Flat.{IsFlatOf};
ghost use Rattle.dg_flat.specs.Parts.{nested_path};
ghost use Rattle.dg_flat.specs.Rules.{BreaksWiringOrEnable, AllNestedKeep, KeepsWiring, KeepsEnable};
ghost use Rattle.dg_flat.specs.inner.Paths.{ArePaths};
ghost use Rattle.dg_flat.specs.inner.Slots.{HaveParents};
ghost use Rattle.dg_flat.specs.inner.Systems.{AreSystems};
ghost use Rattle.dg_flat.specs.inner.Verdict.{KeepsAll};

use crate::blocks::{flat_blocks, flat_places};
use crate::edges::flat_edges;
use crate::enables::first_misplaced;
use crate::paths::{path_in, system_paths};
use crate::systems::Systems;
use crate::wiring::first_unwired;
use dg_model::{CheckFault, Diagram, Nested, NestedBlock, Rule, RuleFault, Shown, SystemPath};
use fx_io::{OutOfMemory, Text};
use std::alloc::Global;

/// The path of the block at a place.
fn path_at(
    alloc: Global,
    blocks: &[NestedBlock],
    paths: &[SystemPath],
    place: u32,
) -> Result<Text, OutOfMemory>
    requires parents { HaveParents blocks.now }
    requires paths { ArePaths blocks.now (length blocks.now) paths.now }
    requires there { place < length blocks.now }
    ensures { IfOk result (λ path. path ≡ nested_path blocks.now place) }
{
    let block = &blocks[place as usize];
    let path = path_in(alloc, paths, block.parent, &block.name)?;
    let text = path.text(alloc);
    drop(path);
    text
}

/// A rule is broken at a block.
fn refusal(
    alloc: Global,
    rule: Rule,
    blocks: &[NestedBlock],
    paths: &[SystemPath],
    place: u32,
) -> CheckFault
    requires parents { HaveParents blocks.now }
    requires paths { ArePaths blocks.now (length blocks.now) paths.now }
    requires there { place < length blocks.now }
    ensures { IsRefusal (λ fault.
        fault ≡ fault_of rule (nested_path blocks.now place) Nothing) result }
{
    match path_at(alloc, blocks, paths, place) {
        Ok(place) => CheckFault::Broken(RuleFault {
            rule,
            place,
            shown: Shown::Nothing,
        }),
        Err(OutOfMemory) => CheckFault::OutOfMemory,
    }
}

/// Refuses nested blocks and lines of which one breaks the rule of wiring, or else of enabled
/// subsystems.
fn check(
    alloc: Global,
    nested: &Nested,
    systems: &Systems,
    paths: &[SystemPath],
) -> Result<(), CheckFault>
    requires sound { IsSound nested.now }
    requires systems { AreSystems nested.now.blocks systems.now }
    requires paths { ArePaths nested.now.blocks (length nested.now.blocks) paths.now }
    ensures kept { OnOk result (KeepsAll nested.now) }
    ensures refused { IfErr result (IsRefusal (BreaksWiringOrEnable nested.now)) }
{
    let blocks = nested.blocks.as_slice();
    if let Some(place) = first_unwired(alloc, systems, nested)? {
        return Err(refusal(alloc, Rule::Wiring, blocks, paths, place));
    }
    if let Some(place) = first_misplaced(systems, nested) {
        return Err(refusal(alloc, Rule::Enable, blocks, paths, place));
    }
    Ok(())
}

/// The flat diagram of nested blocks and lines, or the first broken rule.
fn diagram_of(
    alloc: Global,
    nested: &Nested,
    systems: &Systems,
    paths: &[SystemPath],
) -> Result<Diagram, CheckFault>
    requires sound { IsSound nested.now }
    requires systems { AreSystems nested.now.blocks systems.now }
    requires paths { ArePaths nested.now.blocks (length nested.now.blocks) paths.now }
    ensures flat { IfOk result (IsFlatOf nested.now) }
    ensures kept { OnOk result (KeepsAll nested.now) }
    ensures refused { IfErr result (IsRefusal (BreaksWiringOrEnable nested.now)) }
{
    check(alloc, nested, systems, paths)?;
    let blocks = nested.blocks.as_slice();
    let lines = nested.lines.as_slice();
    let places = flat_places(alloc, blocks)?;
    let edges = flat_edges(alloc, systems, blocks, &places, lines)?;
    let blocks = flat_blocks(alloc, systems, blocks, &places, paths)?;
    Ok(Diagram { blocks, edges })
}

/// The flat diagram of nested blocks and lines, or the first broken rule of wiring and of enabled
/// subsystems, at its first block in file order.
///
/// Blocks stand in file order, each with its path; subsystems are left out, and an EnablePort becomes
/// the test of its System's enable line. A line into or out of a subsystem ends at the block of its
/// port inside. Edges are ordered by destination block and port (Simulink reference, subsystems and
/// signal lines).
pub fn flatten(alloc: Global, nested: &Nested) -> Result<Diagram, CheckFault>
    requires { IsSound nested.now }
    ensures flat { IfOk result (IsFlatOf nested.now) }
    ensures wired { IfOk result IsWired }
    ensures wiring { IfOk result (λ _. AllNestedKeep nested.now KeepsWiring) }
    ensures enables { IfOk result (λ _. AllNestedKeep nested.now KeepsEnable) }
    ensures refused { IfErr result (IsRefusal (BreaksWiringOrEnable nested.now)) }
{
    let blocks = nested.blocks.as_slice();
    let paths = system_paths(alloc, blocks)?;
    let systems = Systems::of(alloc, blocks)?;
    diagram_of(alloc, nested, &systems, paths.as_slice())
}
