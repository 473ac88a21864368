ghost use Rattle.std.specs.Prelude.{◌≡◌, ◌⊎◌, ℕ, List, [], Err, IfErr, IfOk, map};
ghost use Rattle.dg_model.specs.declared.diagram.Block.{Block as BlockOf};
ghost use Rattle.dg_model.specs.declared.fault.RuleFault.{RuleFault as FaultOf};
ghost use Rattle.dg_model.specs.Faults.{IsRefusal};
ghost use Rattle.cmd_model.specs.inner.ModelFault.{fault_of};
ghost use Rattle.cmd_model.specs.Model.{BreaksLines, BreaksText, IsBrokenModel, IsDiagramOf, IsModelOf, IsNotMdl};

use dg_flat::flatten;
use dg_model::{Blocks, CheckFault, Checked, Diagram, RuleFault};
use dg_rules::{Refused, check};
use mdl_build::{build, discard};
use mdl_text::{MdlFault, Tree};
use std::alloc::Global;

/// Why a model has no checked diagram (own).
#[derive(Drop)]
pub enum ModelFault {
    /// The bytes are no MDL text; they stop being the beginning of one at this line, from 1.
    NotMdl { line: u64 },
    /// The first rule that is broken. The blocks are those of the flat diagram, whose numbers the fault
    /// may show; where there is no diagram there are none.
    Broken { fault: RuleFault, blocks: Blocks },
    /// Memory is wanting.
    OutOfMemory,
}

/// The checked diagram of a model's bytes.
///
/// # Errors
/// `NotMdl` exactly where the bytes stand for no tree, `Broken` exactly where they stand for one that
/// breaks a rule, or want of memory.
pub fn accept(alloc: Global, bytes: &[u8]) -> Result<Checked, ModelFault>
    ensures accepted { IfOk result (λ checked. IsModelOf bytes.now checked.diagram) }
    ensures syntax { (line : ℕ) → result ≡ Err (ModelFault.NotMdl line) → IsNotMdl bytes.now line }
    ensures broken { (fault : FaultOf) (blocks : List BlockOf)
        → result ≡ Err (ModelFault.Broken fault blocks)
        → IsBrokenModel bytes.now fault (map (λ block. block.path) blocks) }
{
    let tree = match mdl_text::read(alloc, bytes) {
        Ok(tree) => tree,
        Err(MdlFault::Syntax { line }) => return Err(ModelFault::NotMdl { line }),
        Err(MdlFault::OutOfMemory) => return Err(ModelFault::OutOfMemory),
    };
    let flat = diagram_of(alloc, &tree);
    tree.discard();
    let diagram = match flat {
        Ok(diagram) => diagram,
        Err(fault) => return Err(model_fault(fault, Blocks::new(alloc))),
    };
    match check(alloc, diagram) {
        Ok(checked) => Ok(checked),
        Err(Refused { fault, diagram }) => Err(model_fault(fault, diagram.blocks)),
    }
}

/// A fault of a diagram with these blocks.
fn model_fault(fault: CheckFault, blocks: Blocks) -> ModelFault
    ensures { result ≡ fault_of blocks fault }
{
    match fault {
        CheckFault::Broken(fault) => ModelFault::Broken { fault, blocks },
        CheckFault::OutOfMemory => {
            dg_model::discard(blocks);
            ModelFault::OutOfMemory
        }
    }
}

/// The flat diagram of a tree.
fn diagram_of(alloc: Global, tree: &Tree) -> Result<Diagram, CheckFault>
    ensures flat { IfOk result (IsDiagramOf tree.now) }
    ensures broken { IfErr result (IsRefusal (λ fault. BreaksText tree.now fault []
        ⊎ BreaksLines tree.now fault [])) }
{
    let nested = build(alloc, tree)?;
    let flat = flatten(alloc, &nested);
    discard(nested);
    flat
}
