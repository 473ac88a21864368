//! The blocks and lines that a filter stands for.
ghost use Rattle.std.specs.Prelude.{◌≡◌, ◌≤◌, ◌<◌, ◌+◌, ◌*◌, ◌^◌, ◌∷◌, [], ◌++◌, length, codes, IfOk, OnOk, false};
ghost use Rattle.fx_type.specs.declared.decimal.Decimal.{Decimal};
ghost use Rattle.fir_block.specs.Expanded.{IsFir, IsExpansion, blocks_of, chain_of, delay_block, delay_blocks, gain_block, gain_blocks, initial_of, line, lines_of, taps_of, terms_of, numbered as numbered_of, plain_block, port_block, sum_block};

use crate::filter::{Expansion, Fir, FirBlock, FirBlocks};
use dg_model::{Block, Decimals, Edge, Edges, Kind, Path, PeriodSpec};
use fx_io::{Flags, OutOfMemory, Text};
use fx_text::push_number;
use fx_type::{Decimal, Rounding, TypeSpec};
use std::alloc::Global;

/// A block of which nothing but its kind, its type and its ports is said.
fn plain(kind: Kind, spec: TypeSpec, inputs: u32) -> Block
    ensures { result ≡ plain_block kind spec inputs }
{
    Block {
        path: Path::root(Text::new()),
        kind,
        inputs,
        outputs: 1,
        result: spec,
        rounding: Rounding::Floor,
        saturate: false,
        period: PeriodSpec::Inherit,
        enable: None,
    }
}

/// A list of one.
fn single(alloc: Global, value: Decimal) -> Result<Decimals, OutOfMemory>
    ensures { IfOk result (λ list. list ≡ value ∷ []) }
{
    let mut list = Decimals::new(alloc);
    list.push(value)?;
    Ok(list)
}

/// A letter and a number.
fn numbered(alloc: Global, letter: &[u8], number: u32) -> Result<Text, OutOfMemory>
    ensures { IfOk result (λ name. name ≡ numbered_of letter.now number) }
{
    let mut name = Vec::new(alloc);
    name.extend_from_slice(letter)?;
    push_number(&mut name, u64::from(number))?;
    Text::from_vec(alloc, name)
}

/// The initial value of delay k, from 1; one is repeated.
fn initial_at(fir: &Fir, k: u32) -> Decimal
    requires fir { IsFir fir.now }
    requires from { 1 ≤ k }
    requires to { k < length fir.now.coefficients }
    ensures { (other : Decimal) → result ≡ initial_of other fir.now k }
{
    let initial = fir.initial.as_slice();
    if initial.len() == 1 {
        initial[0]
    } else {
        initial[k as usize - 1]
    }
}

/// Puts a block and its name behind the others.
fn put(blocks: &mut FirBlocks, name: Text, block: Block) -> Result<(), OutOfMemory>
    ensures { OnOk result
        (blocks.new ≡ blocks.old ++ record { name = name; block = block } ∷ []) }
{
    blocks.push(FirBlock { name, block })
}

/// Puts an inner port.
fn put_port(alloc: Global, blocks: &mut FirBlocks, name: &[u8]) -> Result<(), OutOfMemory>
    ensures { OnOk result (blocks.new ≡ blocks.old ++ port_block name.now ∷ []) }
{
    let name = Text::copy(alloc, name)?;
    put(
        blocks,
        name,
        plain(Kind::Pass { width: 0 }, TypeSpec::Auto, 1),
    )
}

/// Puts delay k, from 1.
fn put_delay(alloc: Global, blocks: &mut FirBlocks, fir: &Fir, k: u32) -> Result<(), OutOfMemory>
    requires fir { IsFir fir.now }
    requires from { 1 ≤ k }
    requires to { k < length fir.now.coefficients }
    ensures { OnOk result ((other : Decimal)
        → blocks.new ≡ blocks.old ++ delay_block other fir.now k ∷ []) }
{
    let name = numbered(alloc, b"d", k)?;
    let initial = single(alloc, initial_at(fir, k))?;
    let kind = Kind::Delay {
        length: 1,
        initial,
        reset: false,
    };
    put(blocks, name, plain(kind, TypeSpec::Auto, 1))
}

/// Puts the delays.
fn put_delays(alloc: Global, blocks: &mut FirBlocks, fir: &Fir) -> Result<(), OutOfMemory>
    requires fir { IsFir fir.now }
    ensures { OnOk result ((other : Decimal)
        → blocks.new ≡ blocks.old ++ delay_blocks other fir.now) }
{
    let count = fir.coefficients.as_slice().len() as u32;
    for k in 1..count {
        put_delay(alloc, blocks, fir, k)?;
    }
    Ok(())
}

/// Puts the product with a coefficient, numbered from 0.
fn put_gain(
    alloc: Global,
    blocks: &mut FirBlocks,
    fir: &Fir,
    k: u32,
    coefficient: Decimal,
) -> Result<(), OutOfMemory>
    ensures { OnOk result (blocks.new ≡ blocks.old ++ gain_block fir.now k coefficient ∷ []) }
{
    let name = numbered(alloc, b"c", k)?;
    let value = single(alloc, coefficient)?;
    let kind = Kind::Gain {
        value,
        param: fir.param,
    };
    put(blocks, name, plain(kind, TypeSpec::Internal, 1))
}

/// Puts the products with the coefficients.
fn put_gains(alloc: Global, blocks: &mut FirBlocks, fir: &Fir) -> Result<(), OutOfMemory>
    requires fir { IsFir fir.now }
    ensures { OnOk result
        (blocks.new ≡ blocks.old ++ gain_blocks fir.now 0 fir.now.coefficients) }
{
    for (k, coefficient) in fir.coefficients.as_slice().iter().enumerate() {
        put_gain(alloc, blocks, fir, k as u32, *coefficient)?;
    }
    Ok(())
}

/// Puts their sum.
fn put_sum(alloc: Global, blocks: &mut FirBlocks, fir: &Fir) -> Result<(), OutOfMemory>
    requires fir { IsFir fir.now }
    ensures { OnOk result (blocks.new ≡ blocks.old ++ sum_block fir.now ∷ []) }
{
    let count = fir.coefficients.as_slice().len();
    let negative = Flags::from_vec(vec![in alloc; false; count]?);
    let kind = Kind::Sum {
        negative,
        accum: TypeSpec::Internal,
    };
    let name = Text::copy(alloc, b"sum")?;
    let block = Block {
        rounding: fir.rounding,
        saturate: fir.saturate,
        period: fir.period,
        ..plain(kind, fir.result, count as u32)
    };
    put(blocks, name, block)
}

/// Puts a line into an input port of a block, by their numbers.
fn join(edges: &mut Edges, from: u32, to: u32, to_port: u32) -> Result<(), OutOfMemory>
    ensures { OnOk result (edges.new ≡ edges.old ++ line from to to_port ∷ []) }
{
    edges.push(Edge {
        from,
        from_port: 1,
        to,
        to_port,
    })
}

/// Puts the lines of the chain of delays of a filter of so many coefficients, whose Inport has this
/// number.
fn put_chain(edges: &mut Edges, first: u32, count: u32) -> Result<(), OutOfMemory>
    requires room { first + 2 * count + 1 < 2 ^ 32 }
    ensures { OnOk result (edges.new ≡ edges.old ++ chain_of first count) }
{
    for k in 1..count {
        join(edges, first + (k - 1), first + k, 1)?;
    }
    Ok(())
}

/// Puts the lines from these into the products.
fn put_taps(edges: &mut Edges, first: u32, count: u32) -> Result<(), OutOfMemory>
    requires room { first + 2 * count + 1 < 2 ^ 32 }
    ensures { OnOk result (edges.new ≡ edges.old ++ taps_of first count) }
{
    for k in 0..count {
        join(edges, first + k, first + (count + k), 1)?;
    }
    Ok(())
}

/// Puts the lines from the products into the sum.
fn put_terms(edges: &mut Edges, first: u32, count: u32) -> Result<(), OutOfMemory>
    requires room { first + 2 * count + 1 < 2 ^ 32 }
    ensures { OnOk result (edges.new ≡ edges.old ++ terms_of first count) }
{
    let sum = first + 2 * count;
    for k in 0..count {
        join(edges, first + (count + k), sum, k + 1)?;
    }
    Ok(())
}

/// Puts all lines.
fn put_edges(edges: &mut Edges, first: u32, count: u32) -> Result<(), OutOfMemory>
    requires room { first + 2 * count + 1 < 2 ^ 32 }
    ensures { OnOk result (edges.new ≡ edges.old ++ lines_of first count) }
{
    put_chain(edges, first, count)?;
    put_taps(edges, first, count)?;
    put_terms(edges, first, count)?;
    let sum = first + 2 * count;
    join(edges, sum, sum + 1, 1)
}

/// Puts all blocks.
fn put_blocks(alloc: Global, blocks: &mut FirBlocks, fir: &Fir) -> Result<(), OutOfMemory>
    requires fir { IsFir fir.now }
    ensures { OnOk result ((other : Decimal)
        → blocks.new ≡ blocks.old ++ blocks_of other fir.now) }
{
    put_port(alloc, blocks, b"in")?;
    put_delays(alloc, blocks, fir)?;
    put_gains(alloc, blocks, fir)?;
    put_sum(alloc, blocks, fir)?;
    put_port(alloc, blocks, b"out")
}

/// The blocks and lines of the subsystem that a filter stands for. The subsystem has the number
/// `place`, and its blocks those behind it (Simulink reference, Discrete FIR Filter, direct form).
pub fn expand(alloc: Global, fir: &Fir, place: u32) -> Result<Expansion, OutOfMemory>
    requires fir { IsFir fir.now }
    requires room { place + 2 * length fir.now.coefficients + 2 < 2 ^ 32 }
    ensures { IfOk result (IsExpansion fir.now place) }
{
    let mut blocks = FirBlocks::new(alloc);
    put_blocks(alloc, &mut blocks, fir)?;
    let mut edges = Edges::new(alloc);
    put_edges(
        &mut edges,
        place + 1,
        fir.coefficients.as_slice().len() as u32,
    )?;
    Ok(Expansion { blocks, edges })
}
