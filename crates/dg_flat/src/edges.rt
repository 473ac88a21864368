ghost use Rattle.std.specs.Prelude.{◌≡◌, ◌<◌, List, length, AllPairs, IsPermutation, MatchOption, option_map, IfOk, OnOk, ⊤};
ghost use Rattle.std.specs.List.{filter_map};
ghost use Rattle.dg_model.specs.Wired.{StandsBefore};
ghost use Rattle.dg_model.specs.declared.nested.NestedBlock.{NestedBlock};
ghost use Rattle.dg_flat.specs.Flat.{flat_place, first_port as first_port_of, source_of as source_of_line, end_at, joined as joined_of, edge_of};
ghost use Rattle.dg_flat.specs.inner.PortNumbers.{AreNumbersWithin};
ghost use Rattle.dg_flat.specs.inner.Systems.{AreSystems};
ghost use Rattle.dg_flat.specs.inner.Tables.{IsTable};
ghost use Rattle.dg_flat.specs.inner.Tally.{HaveEnds};

use crate::systems::{Systems, is_subsystem};
use dg_model::{Edge, Edges, NestedBlock, NestedLine, Target};
use fx_io::OutOfMemory;
use std::alloc::Global;

/// A port of a flat block (own).
#[derive(Clone, Copy)]
pub struct FlatPort {
    /// The place of the block.
    pub block: u32,
    /// Its port, from 1.
    pub port: u32,
}

/// Port 1 of the block that a port of a System becomes.
fn first_port(places: &[u32], port: Option<u32>) -> Option<FlatPort>
    requires { MatchOption port ⊤ (λ place. place < length places.now) }
    ensures { (blocks : List NestedBlock) → IsTable (length blocks) (flat_place blocks) places.now →
        result ≡ option_map (first_port_of blocks) port }
{
    match port {
        None => None,
        Some(place) => Some(FlatPort {
            block: places[place as usize],
            port: 1,
        }),
    }
}

/// Where a line comes from.
fn source_of(
    systems: &Systems,
    blocks: &[NestedBlock],
    places: &[u32],
    line: NestedLine,
) -> Option<FlatPort>
    requires systems { AreSystems blocks.now systems.now }
    requires numbers { AreNumbersWithin blocks.now }
    requires places { IsTable (length blocks.now) (flat_place blocks.now) places.now }
    requires there { line.from < length blocks.now }
    ensures { result ≡ source_of_line blocks.now line }
{
    if is_subsystem(&blocks[line.from as usize].part) {
        first_port(places, systems.outs.first(Some(line.from), line.from_port))
    } else {
        Some(FlatPort {
            block: places[line.from as usize],
            port: line.from_port,
        })
    }
}

/// Where a line ends.
fn end_of(
    systems: &Systems,
    blocks: &[NestedBlock],
    places: &[u32],
    place: u32,
    target: Target,
) -> Option<FlatPort>
    requires systems { AreSystems blocks.now systems.now }
    requires numbers { AreNumbersWithin blocks.now }
    requires places { IsTable (length blocks.now) (flat_place blocks.now) places.now }
    requires there { place < length blocks.now }
    ensures { result ≡ end_at blocks.now place target }
{
    match target {
        Target::Port(port) => {
            if is_subsystem(&blocks[place as usize].part) {
                first_port(places, systems.ins.first(Some(place), port))
            } else {
                Some(FlatPort {
                    block: places[place as usize],
                    port,
                })
            }
        }
        Target::Enable => first_port(places, systems.enable(blocks, Some(place))),
    }
}

/// The edge between two ports.
fn edge_of_ports(source: Option<FlatPort>, end: Option<FlatPort>) -> Option<Edge>
    ensures { result ≡ joined_of source end }
{
    let Some(source) = source else { return None };
    let Some(end) = end else { return None };
    Some(Edge {
        from: source.block,
        from_port: source.port,
        to: end.block,
        to_port: end.port,
    })
}

/// The edges of the lines, in their order.
fn line_edges(
    alloc: Global,
    systems: &Systems,
    blocks: &[NestedBlock],
    places: &[u32],
    lines: &[NestedLine],
) -> Result<Vec<Edge>, OutOfMemory>
    requires systems { AreSystems blocks.now systems.now }
    requires numbers { AreNumbersWithin blocks.now }
    requires places { IsTable (length blocks.now) (flat_place blocks.now) places.now }
    requires ends { HaveEnds blocks.now lines.now }
    ensures { IfOk result (λ edges. edges.items ≡ filter_map (edge_of blocks.now) lines.now) }
{
    let mut edges = Vec::new(alloc);
    for line in lines {
        let source = source_of(systems, blocks, places, *line);
        let end = end_of(systems, blocks, places, line.to, line.target);
        if let Some(edge) = edge_of_ports(source, end) {
            edges.push(edge)?;
        }
    }
    Ok(edges)
}

/// Orders edges by destination block, and then by destination port: the second sort keeps the order of
/// the first among edges into one block.
fn put_in_order(edges: &mut Vec<Edge>) -> Result<(), OutOfMemory>
    ensures same { OnOk result (IsPermutation edges.old.items edges.new.items) }
    ensures ordered { OnOk result (AllPairs StandsBefore edges.new.items) }
{
    edges.sort_by_key(|edge| edge.to_port)?;
    edges.sort_by_key(|edge| edge.to)?;
    Ok(())
}

/// The edges of the lines, ordered by destination.
pub fn flat_edges(
    alloc: Global,
    systems: &Systems,
    blocks: &[NestedBlock],
    places: &[u32],
    lines: &[NestedLine],
) -> Result<Edges, OutOfMemory>
    requires systems { AreSystems blocks.now systems.now }
    requires numbers { AreNumbersWithin blocks.now }
    requires places { IsTable (length blocks.now) (flat_place blocks.now) places.now }
    requires ends { HaveEnds blocks.now lines.now }
    ensures same { IfOk result (IsPermutation (filter_map (edge_of blocks.now) lines.now)) }
    ensures ordered { IfOk result (AllPairs StandsBefore) }
{
    let mut edges = line_edges(alloc, systems, blocks, places, lines)?;
    put_in_order(&mut edges)?;
    Ok(Edges::from_vec(edges))
}
