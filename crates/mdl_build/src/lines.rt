//! The lines of a tree.
ghost use Rattle.std.specs.Prelude.{◌≡◌, ◌<◌, ◌++◌, [], true, length, IfOk};
ghost use Rattle.std.specs.Option.{option_copied};
ghost use Rattle.mdl_build.specs.Lines.{port_of, target_of, named_by, source_of, goal_of, is_joined, line_from, branch_of, keeps_line, line_at, lines_of};
ghost use Rattle.mdl_build.specs.Roles.{role_of, roles_of};
ghost use Rattle.mdl_build.specs.inner.Lines.{source_if, sources_before, are_joined_before, line_list};
ghost use Rattle.mdl_build.specs.inner.Names.{AreBlocks};

use crate::layout::Layout;
use crate::names::Blocks;
use crate::roles::Role;
use dg_model::{NestedLine, NestedLines, Target};
use fx_io::OutOfMemory;
use mdl_values::read_number;
use std::alloc::Global;

/// Where a line comes from (own).
#[derive(Clone, Copy)]
pub struct Source {
    /// The block's number.
    pub from: u32,
    /// Its output port.
    pub port: u32,
}

/// Where a branch goes to (own).
#[derive(Clone, Copy)]
pub enum Goal {
    /// It has no destination.
    Nowhere,
    /// To a port of the block of this number.
    To(u32, Target),
    /// It names no block, or no port.
    Wrong,
}

/// The line that an item is a branch of.
fn branch_of(role: Role) -> Option<usize>
    ensures { result ≡ branch_of role }
{
    let Role::Branch(line) = role else {
        return None;
    };
    Some(line)
}

/// The port of an end; one that is missing is 1.
fn port_of(text: Option<&[u8]>) -> Option<u32>
    ensures { result ≡ port_of (option_copied text.entry) }
{
    match text {
        None => Some(1),
        Some(text) => read_number(text, 1, 20000),
    }
}

/// Where a line ends at its block.
fn target_of(text: Option<&[u8]>) -> Option<Target>
    ensures { result ≡ target_of (option_copied text.entry) }
{
    let Some(text) = text else {
        return Some(Target::Port(1));
    };
    if text == b"enable".as_slice() {
        return Some(Target::Enable);
    }
    match port_of(Some(text)) {
        Some(port) => Some(Target::Port(port)),
        None => None,
    }
}

/// The block that an end of a line names in its System.
fn named_by<'a>(
    layout: &Layout<'a>,
    blocks: &Blocks<'a>,
    line: usize,
    name: Option<&'a [u8]>,
) -> Option<u32>
    requires within { line < length layout.now.items.now }
    requires known { AreBlocks layout.now.items.now blocks.now }
    ensures { result ≡ named_by layout.now.items.now line (option_copied name.entry) }
{
    let Some(name) = name else {
        return None;
    };
    let Some(system) = layout.holder(line) else {
        return None;
    };
    blocks.number(system, name)
}

/// The source of a line, where it is well formed.
fn source_of<'a>(layout: &Layout<'a>, blocks: &Blocks<'a>, line: usize) -> Option<Source>
    requires within { line < length layout.now.items.now }
    requires known { AreBlocks layout.now.items.now blocks.now }
    ensures { result ≡ source_of layout.now.items.now line }
{
    let Some(from) = named_by(layout, blocks, line, layout.value(line, b"SrcBlock")) else {
        return None;
    };
    match port_of(layout.value(line, b"SrcPort")) {
        None => None,
        Some(port) => Some(Source { from, port }),
    }
}

/// Where the branch of a line at a place goes to.
fn goal_of<'a>(layout: &Layout<'a>, blocks: &Blocks<'a>, line: usize, place: usize) -> Goal
    requires within { line < length layout.now.items.now }
    requires at { place < length layout.now.items.now }
    requires known { AreBlocks layout.now.items.now blocks.now }
    ensures { result ≡ goal_of layout.now.items.now line place }
{
    let Some(name) = layout.value(place, b"DstBlock") else {
        return Goal::Nowhere;
    };
    let Some(to) = named_by(layout, blocks, line, Some(name)) else {
        return Goal::Wrong;
    };
    match target_of(layout.value(place, b"DstPort")) {
        None => Goal::Wrong,
        Some(target) => Goal::To(to, target),
    }
}

/// The source of a line; other items have none.
fn source_if<'a>(
    layout: &Layout<'a>,
    blocks: &Blocks<'a>,
    place: usize,
    branch: Option<usize>,
) -> Option<Source>
    requires within { place < length layout.now.items.now }
    requires known { AreBlocks layout.now.items.now blocks.now }
    ensures { result ≡ source_if layout.now.items.now place branch }
{
    match branch {
        None => None,
        Some(line) => {
            if line == place {
                source_of(layout, blocks, place)
            } else {
                None
            }
        }
    }
}

/// Of each item that is a line its source, where it is well formed.
fn sources<'a>(
    alloc: Global,
    layout: &Layout<'a>,
    roles: &[Role],
    blocks: &Blocks<'a>,
) -> Result<Vec<Option<Source>>, OutOfMemory>
    requires roles { roles.now ≡ roles_of layout.now.items.now }
    requires known { AreBlocks layout.now.items.now blocks.now }
    ensures { IfOk result (λ sources. sources.items
        ≡ sources_before layout.now.items.now (length layout.now.items.now)) }
{
    let mut sources = Vec::new(alloc);
    for (place, role) in roles.iter().enumerate() {
        sources.push(source_if(layout, blocks, place, branch_of(*role)))?;
    }
    Ok(sources)
}

/// Puts the line to the end of a branch at the end, if it has one. Tells whether all is well
/// formed.
fn push_line(
    lines: &mut NestedLines,
    source: Option<Source>,
    goal: Goal,
) -> Result<bool, OutOfMemory>
    ensures joined { IfOk result (λ joined. joined ≡ is_joined source goal) }
    ensures pushed { IfOk result (λ joined. joined ≡ true
        → lines.new ≡ lines.old ++ line_list (line_from source goal)) }
{
    let Some(Source { from, port }) = source else {
        return Ok(false);
    };
    match goal {
        Goal::Nowhere => Ok(true),
        Goal::Wrong => Ok(false),
        Goal::To(to, target) => {
            let line = NestedLine {
                from,
                from_port: port,
                to,
                target,
            };
            lines.push(line)?;
            Ok(true)
        }
    }
}

/// Puts the line to the end of the item at a place at the end, if it is a branch that has one.
/// Tells whether all is well formed.
fn add_line<'a>(
    lines: &mut NestedLines,
    layout: &Layout<'a>,
    blocks: &Blocks<'a>,
    sources: &[Option<Source>],
    place: usize,
    role: Role,
) -> Result<bool, OutOfMemory>
    requires within { place < length layout.now.items.now }
    requires known { AreBlocks layout.now.items.now blocks.now }
    requires sources { sources.now
        ≡ sources_before layout.now.items.now (length layout.now.items.now) }
    requires role { role_of layout.now.items.now place ≡ role }
    ensures joined { IfOk result (λ joined. joined ≡ keeps_line layout.now.items.now place role) }
    ensures pushed { IfOk result (λ joined. joined ≡ true
        → lines.new ≡ lines.old ++ line_list (line_at layout.now.items.now place role)) }
{
    let Some(line) = branch_of(role) else {
        return Ok(true);
    };
    let goal = goal_of(layout, blocks, line, place);
    push_line(lines, sources[line], goal)
}

/// Puts the lines of a tree, one for each of their ends, in the order of these. Tells whether each
/// end names a block of its System, and has a port's number.
pub fn put_lines<'a>(
    alloc: Global,
    lines: &mut NestedLines,
    layout: &Layout<'a>,
    roles: &[Role],
    blocks: &Blocks<'a>,
) -> Result<bool, OutOfMemory>
    requires none { lines.old ≡ [] }
    requires roles { roles.now ≡ roles_of layout.now.items.now }
    requires known { AreBlocks layout.now.items.now blocks.now }
    ensures joined { IfOk result (λ joined. joined
        ≡ are_joined_before layout.now.items.now (length layout.now.items.now)) }
    ensures lines { IfOk result (λ joined. joined ≡ true
        → lines.new ≡ lines_of layout.now.items.now) }
{
    let sources = sources(alloc, layout, roles, blocks)?;
    for (place, role) in roles.iter().enumerate() {
        if !add_line(lines, layout, blocks, &sources, place, *role)? {
            return Ok(false);
        }
    }
    Ok(true)
}
