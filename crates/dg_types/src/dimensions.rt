ghost use Rattle.std.specs.Prelude.{◌≡◌, ◌<◌, ◌↔◌, true, length, [], None, Some, slice_get, slice_index_or, IfOk, IfErr, IfSome, OnOk};
ghost use Rattle.dg_model.specs.declared.diagram.Block.{Block};
ghost use Rattle.dg_model.specs.declared.fault.Shown.TheVariants.{Nothing};
ghost use Rattle.dg_model.specs.declared.rule.Rule.{Rule};
ghost use Rattle.dg_model.specs.Faults.{IsRefusal, fault_of};
ghost use Rattle.dg_model.specs.Dimension.{KeepsDimension, KeepsDimensions, BreaksDimension};
ghost use Rattle.dg_model.specs.Widths.{widths_of};
ghost use Rattle.dg_model.specs.Wired.{IsWired};
ghost use Rattle.dg_types.specs.inner.Build.{all_forms};
ghost use Rattle.dg_types.specs.inner.WidthScan.{CanBeScanned, IsScan, KeepAllBelow};

use crate::build::width_round;
use crate::elements::is_bounded;
use crate::fitting::keeps;
use crate::linked::WidthRound;
use crate::scanning::{Scan, put_scan};
use dg_model::{CheckFault, Diagram, PortWidths, Rule, RuleFault, Shown};
use fx_io::{PortSizes, Text};
use std::alloc::Global;

/// The row of a block.
fn row_at(rows: &PortSizes, place: usize) -> &[u32]
    requires { place < length rows.now }
    ensures { result.now ≡ slice_index_or rows.now place [] }
{
    rows.as_slice()[place].as_slice()
}

/// Whether the block at a place keeps the rule.
fn keeps_at(diagram: &Diagram, scan: &Scan, place: usize) -> bool
    requires scan { IsScan diagram.now scan.now }
    requires there { place < length diagram.now.blocks }
    ensures { (block : Block) → slice_get diagram.now.blocks place ≡ Some block →
        (result ≡ true) ↔ KeepsDimension diagram.now (widths_of diagram.now) place block }
{
    let block = &diagram.blocks.as_slice()[place];
    let widths = row_at(&scan.widths, place);
    let again = row_at(&scan.again, place);
    keeps(block, widths, again, row_at(&scan.inputs, place))
}

/// The first block that breaks the rule, if there is one.
fn first_broken(diagram: &Diagram, scan: &Scan) -> Option<usize>
    requires { IsScan diagram.now scan.now }
    ensures there { IfSome result (λ place. place < length diagram.now.blocks) }
    ensures broken { IfSome result (λ place. (block : Block) →
        slice_get diagram.now.blocks place ≡ Some block →
        ¬ KeepsDimension diagram.now (widths_of diagram.now) place block) }
    ensures before { IfSome result (KeepAllBelow diagram.now) }
    ensures none { result ≡ None → KeepAllBelow diagram.now (length diagram.now.blocks) }
{
    for place in 0..diagram.blocks.as_slice().len() {
        if !keeps_at(diagram, scan, place) {
            return Some(place);
        }
    }
    None
}

/// The fault of a path, where the empty one is the whole model.
fn fault_at(place: Text) -> RuleFault
    ensures { result ≡ fault_of Rule.Dimension place Nothing }
{
    RuleFault {
        rule: Rule::Dimension,
        place,
        shown: Shown::Nothing,
    }
}

/// The widths of the signals of a diagram: those after as many rounds as it has blocks, where in
/// each round every block takes its widths from those of the round before (Simulink reference,
/// signal dimensions; rounds and bounds own). Each block has a list of widths, of its output ports
/// in order, in elements; one without an output port has its own width alone.
///
/// # Errors
/// Broken exactly where the rule of dimensions is broken: at the first block whose widths another
/// round would change, of which an output has more than 1,024 elements, or whose inputs, parameters
/// or declared width don't agree with its widths; else at the whole model, where all ports together
/// have too many elements. Or want of memory.
pub fn widths(alloc: Global, diagram: &Diagram) -> Result<PortWidths, CheckFault>
    requires { IsWired diagram.now }
    ensures widths { IfOk result (λ widths. widths ≡ widths_of diagram.now) }
    ensures kept { OnOk result (KeepsDimensions diagram.now) }
    ensures refused { IfErr result (IsRefusal (BreaksDimension diagram.now)) }
{
    let round = width_round(alloc, diagram)?;
    let mut scan = Scan {
        widths: PortSizes::new(alloc),
        again: PortSizes::new(alloc),
        inputs: PortSizes::new(alloc),
    };
    let found = widths_by(alloc, diagram, &round, &mut scan);
    drop(scan);
    drop(round);
    found
}

/// The widths of a diagram by its rounds, where they keep the rule.
fn widths_by(
    alloc: Global,
    diagram: &Diagram,
    round: &WidthRound<'_>,
    scan: &mut Scan,
) -> Result<PortWidths, CheckFault>
    requires { CanBeScanned diagram.now (all_forms round.now.blocks.now) round.now.sources
        scan.old }
    ensures widths { IfOk result (λ widths. widths ≡ widths_of diagram.now) }
    ensures kept { OnOk result (KeepsDimensions diagram.now) }
    ensures refused { IfErr result (IsRefusal (BreaksDimension diagram.now)) }
{
    put_scan(alloc, diagram, round, scan)?;
    widths_in(alloc, diagram, scan)
}

/// The widths of a diagram that a scan found, where they keep the rule.
fn widths_in(alloc: Global, diagram: &Diagram, scan: &Scan) -> Result<PortWidths, CheckFault>
    requires wired { IsWired diagram.now }
    requires scan { IsScan diagram.now scan.now }
    ensures widths { IfOk result (λ widths. widths ≡ widths_of diagram.now) }
    ensures kept { OnOk result (KeepsDimensions diagram.now) }
    ensures refused { IfErr result (IsRefusal (BreaksDimension diagram.now)) }
{
    if let Some(place) = first_broken(diagram, scan) {
        let path = diagram.blocks.as_slice()[place].path.text(alloc)?;
        return Err(CheckFault::Broken(fault_at(path)));
    }
    if !is_bounded(diagram, scan.widths.as_slice()) {
        return Err(CheckFault::Broken(fault_at(Text::new())));
    }
    let widths = PortWidths::of(alloc, &scan.widths)?;
    Ok(widths)
}
