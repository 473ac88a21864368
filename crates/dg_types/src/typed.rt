//! The types of a diagram, and the first block that breaks the rule of types.
ghost use Rattle.std.specs.Prelude.{◌≡◌, ◌<◌, ◌↔◌, [], true, map, length, None, Some, slice_get, IfOk, IfErr, IfSome, OnOk};
ghost use Rattle.dg_model.specs.declared.diagram.Block.{Block};
ghost use Rattle.dg_model.specs.declared.fault.Shown.TheVariants.{Word};
ghost use Rattle.dg_model.specs.declared.rule.Rule.{Rule};
ghost use Rattle.dg_model.specs.Attributes.{or_logical, param_type_at};
ghost use Rattle.dg_model.specs.Checked.{params_of};
ghost use Rattle.dg_model.specs.Faults.{AllKeep, BreaksAt, IsRefusal, fault_of};
ghost use Rattle.dg_model.specs.TypeRounds.{types_of};
ghost use Rattle.dg_model.specs.TypeRule.{KeepsTypes, BreaksType};
ghost use Rattle.dg_model.specs.Wired.{IsWired};
ghost use Rattle.dg_types.specs.inner.Build.{all_forms};
ghost use Rattle.dg_types.specs.inner.WidthShapes.{Mirrors};
ghost use Rattle.dg_types.specs.inner.TypeScan.{KeepsPart, KeepBelow, word_of};
ghost use Rattle.dg_types.specs.inner.Types.{AreFound, AreTyped};

use crate::typed_round::{TypeRound, known_types, round_of};
use crate::typed_rule::{agrees, has_types, is_narrow};
use crate::typed_step::coefficient_type;
use dg_model::{CheckFault, Diagram, FxTypes, Path, PortWidths, Rule, RuleFault, Shown};
use fx_io::{OutOfMemory, Text};
use fx_type::FxType;
use std::alloc::Global;

/// The types of a diagram's blocks (Simulink reference, signal data types).
#[derive(Drop)]
pub struct BlockTypes {
    /// The type of the outputs of each block; Logical where it has no output and nothing gives it
    /// one.
    pub results: FxTypes,
    /// The type of the coefficients of each Gain and of the accumulator of each Sum that has one, and
    /// Logical at every other block.
    pub params: FxTypes,
}

/// The parts of the rule of types, in their order.
#[derive(Clone, Copy)]
pub enum Part {
    /// What a block's equation names is valid.
    Narrow,
    /// The types of its outputs and inputs are known.
    Known,
    /// The types of its inputs agree.
    Agree,
}

impl Part {
    /// What is told of a part that is broken.
    fn word(self) -> &'static [u8]
        ensures { result.now ≡ word_of self }
    {
        match self {
            Part::Narrow => b"wide",
            Part::Known => b"missing",
            Part::Agree => b"differs",
        }
    }
}

/// A diagram as the rounds of types see it, with the types after them.
#[derive(Clone, Copy)]
struct Typed<'a, 'b> {
    diagram: &'a Diagram,
    round: &'a TypeRound<'b>,
    types: &'a [Option<FxType>],
}

/// Whether the block at a place keeps a part of the rule.
fn keeps<'a, 'b>(part: Part, typed: Typed<'a, 'b>, place: u32) -> bool
    requires typed { AreTyped typed }
    requires there { place < length typed.diagram.now.blocks }
    ensures { (block : Block) → slice_get typed.entry.diagram.now.blocks place ≡ Some block →
        (result ≡ true) ↔ KeepsPart part typed.entry.diagram.now place block }
{
    let types = typed.types;
    let block = &typed.round.blocks[place as usize];
    let sources = typed.round.links.sources_of(place);
    match part {
        Part::Narrow => is_narrow(block, types, sources),
        Part::Known => has_types(block, types[place as usize], types, sources),
        Part::Agree => agrees(block, types, sources),
    }
}

/// The first block that breaks a part of the rule, if there is one.
fn first_broken<'a, 'b>(part: Part, typed: Typed<'a, 'b>) -> Option<usize>
    requires wired { IsWired typed.diagram.now }
    requires typed { AreTyped typed }
    ensures there { IfSome result (λ place. place < length typed.entry.diagram.now.blocks) }
    ensures broken { IfSome result (λ place. (block : Block) →
        slice_get typed.entry.diagram.now.blocks place ≡ Some block →
        ¬ KeepsPart part typed.entry.diagram.now place block) }
    ensures before { IfSome result (KeepBelow part typed.entry.diagram.now) }
    ensures none { result ≡ None →
        KeepBelow part typed.entry.diagram.now (length typed.entry.diagram.now.blocks) }
{
    for place in 0..typed.diagram.blocks.as_slice().len() {
        if !keeps(part, typed, place as u32) {
            return Some(place);
        }
    }
    None
}

/// The fault of a path and a part.
fn fault_at(alloc: Global, path: &Path, part: Part) -> Result<RuleFault, OutOfMemory>
    ensures { IfOk result (λ fault. fault
        ≡ fault_of Rule.Type path.now (Word (word_of part))) }
{
    Ok(RuleFault {
        rule: Rule::Type,
        place: path.text(alloc)?,
        shown: Shown::Word(Text::copy(alloc, part.word())?),
    })
}

/// Refuses a diagram of which a block breaks a part of the rule.
fn check<'a, 'b>(alloc: Global, part: Part, typed: Typed<'a, 'b>) -> Result<(), CheckFault>
    requires wired { IsWired typed.diagram.now }
    requires typed { AreTyped typed }
    ensures kept { OnOk result
        (AllKeep typed.entry.diagram.now (KeepsPart part typed.entry.diagram.now)) }
    ensures refused { IfErr result (IsRefusal (BreaksAt typed.entry.diagram.now Rule.Type
        (KeepsPart part typed.entry.diagram.now) (λ place block. Word (word_of part)))) }
{
    let Some(place) = first_broken(part, typed) else {
        return Ok(());
    };
    let fault = fault_at(alloc, &typed.diagram.blocks.as_slice()[place].path, part)?;
    Err(CheckFault::Broken(fault))
}

/// Refuses a diagram that breaks the rule.
fn check_all<'a, 'b>(alloc: Global, typed: Typed<'a, 'b>) -> Result<(), CheckFault>
    requires wired { IsWired typed.diagram.now }
    requires typed { AreTyped typed }
    ensures kept { OnOk result (KeepsTypes typed.entry.diagram.now) }
    ensures refused { IfErr result (IsRefusal (BreaksType typed.entry.diagram.now)) }
{
    check(alloc, Part::Narrow, typed)?;
    check(alloc, Part::Known, typed)?;
    check(alloc, Part::Agree, typed)?;
    Ok(())
}

/// A type that is known, and Logical in place of one that isn't.
fn kind_or_logical(kind: Option<FxType>) -> FxType
    ensures { result ≡ or_logical kind }
{
    match kind {
        Some(kind) => kind,
        None => FxType::Logical,
    }
}

/// The type of the coefficients of the block at a place, and Logical where it has none.
fn param_at<'a, 'b>(typed: Typed<'a, 'b>, place: u32) -> FxType
    requires typed { AreTyped typed }
    requires there { place < length typed.diagram.now.blocks }
    ensures { result ≡ or_logical (param_type_at typed.entry.diagram.now
        (types_of typed.entry.diagram.now) place) }
{
    let block = &typed.round.blocks[place as usize];
    let sources = typed.round.links.sources_of(place);
    kind_or_logical(coefficient_type(&block.kind, typed.types, sources))
}

/// Puts the types of all blocks, Logical in place of one that isn't known, and those of their
/// coefficients.
fn put_types<'a, 'b>(
    typed: Typed<'a, 'b>,
    results: &mut FxTypes,
    params: &mut FxTypes,
) -> Result<(), OutOfMemory>
    requires wired { IsWired typed.diagram.now }
    requires typed { AreTyped typed }
    requires results { results.old ≡ [] }
    requires params { params.old ≡ [] }
    ensures results { OnOk result
        (results.new ≡ map or_logical (types_of typed.entry.diagram.now)) }
    ensures params { OnOk result (params.new ≡ params_of typed.entry.diagram.now) }
{
    for place in 0..typed.diagram.blocks.as_slice().len() {
        results.push(kind_or_logical(typed.types[place]))?;
        params.push(param_at(typed, place as u32))?;
    }
    Ok(())
}

/// The types of a diagram by its rounds, where it keeps all parts of the rule.
fn types_by(
    alloc: Global,
    diagram: &Diagram,
    round: &TypeRound<'_>,
) -> Result<BlockTypes, CheckFault>
    requires wired { IsWired diagram.now }
    requires blocks { round.now.blocks.now ≡ diagram.now.blocks }
    requires mirrors { Mirrors diagram.now
        (all_forms round.now.links.blocks.now) round.now.links.sources }
    ensures found { IfOk result (AreFound diagram.now) }
    ensures refused { IfErr result (IsRefusal (BreaksType diagram.now)) }
{
    let known = known_types(alloc, diagram, round)?;
    let types = known.as_slice();
    let typed = Typed {
        diagram,
        round,
        types,
    };
    check_all(alloc, typed)?;
    let mut results = FxTypes::new(alloc);
    let mut params = FxTypes::new(alloc);
    put_types(typed, &mut results, &mut params)?;
    Ok(BlockTypes { results, params })
}

/// The types of a diagram: those after as many rounds as it has blocks, where in each round every
/// block whose type isn't known takes it once the types that it needs are (Simulink reference,
/// `OutDataTypeStr`; the rounds and the internal rule own). The rule of dimensions comes before that
/// of types, so a caller has the widths; no type hangs on them.
///
/// # Errors
/// Broken exactly where the rule of types is broken. First, at the first block of which all input
/// types are known and a full type, a union or a Gain's parameter type that its equation names is
/// not valid (`wide`); else at the first block of which the type of an output or of an input isn't
/// known (`missing`); else at the first Outport, inner port or Mux whose types don't agree
/// (`differs`). Or want of memory.
pub fn types(
    alloc: Global,
    diagram: &Diagram,
    _widths: &PortWidths,
) -> Result<BlockTypes, CheckFault>
    requires { IsWired diagram.now }
    ensures results { IfOk result (λ types.
        types.results ≡ map or_logical (types_of diagram.now)) }
    ensures params { IfOk result (λ types. types.params ≡ params_of diagram.now) }
    ensures kept { OnOk result (KeepsTypes diagram.now) }
    ensures refused { IfErr result (IsRefusal (BreaksType diagram.now)) }
{
    let round = round_of(alloc, diagram)?;
    let types = types_by(alloc, diagram, &round);
    drop(round);
    types
}
