//! The part that a block of a type becomes, by what its parameters say.
ghost use Rattle.std.specs.Prelude.{◌≡◌, false, IfOk};
ghost use Rattle.dg_model.specs.declared.kind.Kind.{Kind};
ghost use Rattle.mdl_build.specs.declared.parts.Standing.{Standing};
ghost use Rattle.mdl_build.specs.Parts.{block_with, open_sizes, in_part, out_part, part_of, filter_of};

use crate::library::BlockType;
use crate::settings::{Said, Settings};
use dg_model::{Block, Criterion, Decimals, Gate, Kind, Part, Path, Relation};
use fir_block::Fir;
use fx_io::{Flags, OutOfMemory, Sizes, Text};
use fx_type::{Decimal, TypeSpec};
use std::alloc::Global;

/// Where a block stands (own).
#[derive(Clone, Copy)]
pub enum Standing {
    /// In the System of the Model.
    Root,
    /// In the System of a subsystem that has no EnablePort.
    Plain,
    /// In the System of a subsystem that has one.
    Enabled,
}

/// A block of a kind and with so many ports, of which the parameters say the rest.
fn block_with(said: Said, kind: Kind, inputs: u32, outputs: u32) -> Block
    ensures { result ≡ block_with said kind inputs outputs }
{
    Block {
        path: Path::root(Text::new()),
        kind,
        inputs,
        outputs,
        result: said.result,
        rounding: said.rounding,
        saturate: said.saturate,
        period: said.period,
        enable: None,
    }
}

/// The sizes of the parts of a Demux: those that are given, or so many open ones.
fn open_sizes(alloc: Global, count: u32, sizes: Sizes) -> Result<Sizes, OutOfMemory>
    ensures { IfOk result (λ parts. parts ≡ open_sizes count sizes) }
{
    if sizes.as_slice().is_empty() {
        Ok(Sizes::from_vec(vec![in alloc; 0; count as usize]?))
    } else {
        Ok(sizes)
    }
}

/// The part of an Inport.
fn in_part(standing: Standing, said: Said) -> Part
    ensures { result ≡ in_part standing said }
{
    let number = said.number;
    let width = said.width;
    let block = match standing {
        Standing::Root => block_with(said, Kind::Inport { number, width }, 0, 1),
        Standing::Plain | Standing::Enabled => block_with(said, Kind::Pass { width }, 1, 1),
    };
    Part::In(block, number)
}

/// The part of an Outport.
fn out_part(standing: Standing, said: Said, initial: Decimals) -> Part
    ensures { result ≡ out_part standing said initial }
{
    let number = said.number;
    let reset = said.flag;
    let block = match standing {
        Standing::Root => block_with(said, Kind::Outport { number }, 1, 0),
        Standing::Plain => block_with(said, Kind::Pass { width: 0 }, 1, 1),
        Standing::Enabled => block_with(said, Kind::EnOut { reset, initial }, 1, 1),
    };
    Part::Out(block, number)
}

/// A constant.
fn constant(value: Decimals) -> Kind
    ensures { result ≡ Kind.Constant value }
{
    Kind::Constant { value }
}

/// A sum, of which these inputs are subtracted.
fn sum(negative: Flags, accum: TypeSpec) -> Kind
    ensures { result ≡ Kind.Sum negative accum }
{
    Kind::Sum { negative, accum }
}

/// A list of all inputs.
fn mux(sizes: Sizes) -> Kind
    ensures { result ≡ Kind.Mux sizes }
{
    Kind::Mux { sizes }
}

/// A conversion of the input, or of its stored integer.
fn convert(stored: bool) -> Kind
    ensures { result ≡ Kind.Convert stored }
{
    Kind::Convert { stored }
}

/// A product of the input and a coefficient.
fn gain(value: Decimals, param: TypeSpec) -> Kind
    ensures { result ≡ Kind.Gain value param }
{
    Kind::Gain { value, param }
}

/// A choice of the first or the third input.
fn switch(criterion: Criterion, threshold: Decimals) -> Kind
    ensures { result ≡ Kind.Switch criterion threshold }
{
    Kind::Switch {
        criterion,
        threshold,
    }
}

/// A relation of two inputs.
fn relation(operator: Relation) -> Kind
    ensures { result ≡ Kind.Relational operator }
{
    Kind::Relational { operator }
}

/// A gate.
fn logic(operator: Gate) -> Kind
    ensures { result ≡ Kind.Logic operator }
{
    Kind::Logic { operator }
}

/// A delay by so many hits, which goes on where a subsystem is enabled again.
fn delay(length: u32, initial: Decimals) -> Kind
    ensures { result ≡ Kind.Delay length initial false }
{
    Kind::Delay {
        length,
        initial,
        reset: false,
    }
}

/// A change of the period.
fn transition(period: Decimal, initial: Decimals) -> Kind
    ensures { result ≡ Kind.RateTransition period initial }
{
    Kind::RateTransition { period, initial }
}

/// The part of a block that is no port of a subsystem.
fn plain(said: Said, kind: Kind, inputs: u32, outputs: u32) -> Part
    ensures { result ≡ Part.Plain (block_with said kind inputs outputs) }
{
    Part::Plain(block_with(said, kind, inputs, outputs))
}

/// The part of a block of a type, by what its parameters say. The lists are taken out of them.
pub fn part_of(
    alloc: Global,
    standing: Standing,
    block_type: BlockType,
    settings: &mut Settings,
) -> Result<Part, OutOfMemory>
    ensures { IfOk result (λ part. part ≡ part_of standing block_type settings.old) }
{
    let said = settings.said;
    Ok(match block_type {
        BlockType::Inport => in_part(standing, said),
        BlockType::Outport => out_part(standing, said, settings.take_list(alloc)),
        BlockType::SubSystem | BlockType::DiscreteFir => Part::SubSystem,
        BlockType::EnablePort => Part::Enable { reset: said.flag },
        BlockType::Constant => plain(said, constant(settings.take_list(alloc)), 0, 1),
        BlockType::Ground => plain(said, Kind::Ground, 0, 1),
        BlockType::Terminator => plain(said, Kind::Terminator, 1, 0),
        BlockType::Sum => {
            let negative = settings.take_signs(alloc);
            plain(said, sum(negative, said.coefficient), said.number, 1)
        }
        BlockType::Gain => {
            let value = settings.take_list(alloc);
            plain(said, gain(value, said.coefficient), 1, 1)
        }
        BlockType::Product => plain(said, Kind::Product, 2, 1),
        BlockType::UnitDelay => plain(said, delay(1, settings.take_list(alloc)), 1, 1),
        BlockType::Delay => plain(said, delay(said.number, settings.take_list(alloc)), 1, 1),
        BlockType::Switch => {
            let threshold = settings.take_list(alloc);
            plain(said, switch(said.criterion, threshold), 3, 1)
        }
        BlockType::RelationalOperator => plain(said, relation(said.relation), 2, 1),
        BlockType::Logic => plain(said, logic(said.gate), said.number, 1),
        BlockType::DataTypeConversion => plain(said, convert(said.flag), 1, 1),
        BlockType::Mux => plain(said, mux(settings.take_sizes(alloc)), said.number, 1),
        BlockType::Demux => {
            let sizes = open_sizes(alloc, said.number, settings.take_sizes(alloc))?;
            plain(said, Kind::Demux { sizes }, 1, said.number)
        }
        BlockType::RateTransition => {
            let initial = settings.take_list(alloc);
            plain(said, transition(said.rate, initial), 1, 1)
        }
    })
}

/// The filter that a block of a type stands for, by what its parameters say. Its lists are taken out
/// of them, which say the same of the part.
pub fn filter_of(
    alloc: Global,
    name: &[u8],
    block_type: BlockType,
    settings: &mut Settings,
) -> Result<Option<Fir>, OutOfMemory>
    ensures filter { IfOk result (λ filter. filter
        ≡ filter_of name.now block_type settings.old) }
    ensures part { IfOk result (λ filter. (standing : Standing)
        → part_of standing block_type settings.new ≡ part_of standing block_type settings.old) }
{
    let BlockType::DiscreteFir = block_type else {
        return Ok(None);
    };
    let said = settings.said;
    let name = Text::copy(alloc, name)?;
    let (coefficients, initial) = settings.take_filter(alloc);
    Ok(Some(Fir {
        name,
        coefficients,
        initial,
        param: said.coefficient,
        result: said.result,
        rounding: said.rounding,
        saturate: said.saturate,
        period: said.period,
    }))
}
