//! The items of a netlist's module: declarations, then the drivers of Unit nets, then the other
//! drivers, then the output ports, then `ce_out`.
ghost use Rattle.std.specs.Prelude.{◌++◌, ◌∷◌, [], map};
ghost use Rattle.vl_ast.specs.Gated.{gated_item, shows_enable};
ghost use Rattle.vl_ast.specs.Listing.{Holds, Lists};
ghost use Rattle.vl_emit.specs.inner.NetItems.{declarers_at, items_of, others_at};
ghost use Rattle.vl_emit.specs.inner.Ready.{HasKind, IsNet, IsSource, circuit_of, net_count};
ghost use Rattle.vl_emit.specs.inner.Ready.{net_items, first_in, all_shown};

use crate::conditions::enable;
use crate::driving::{
    put_accumulator, put_bridge, put_comb, put_counter, put_enabled, put_reg, put_unit,
};
use crate::operands::{numbered, operand_name, text_of};
use crate::source::{Source, operand};
use fx_io::Text;
use hw_net::NetKind;
use std::alloc::Global;
use vl_ast::{Listing, ModItem, begin, put_assignment, put_declaration};

/// The parts of a module that have items of each net: their declarations, the drivers of Unit nets, and
/// those of the others.
#[derive(Clone, Copy)]
enum Part {
    Declarations,
    Units,
    Others,
}

/// The declarations of a net of this kind.
fn declare(alloc: Global, out: &mut Listing<ModItem>, source: Source, own: usize, kind: &NetKind)
    requires { IsNet source own }
    ensures { Lists out.old out.new (declarers_at (circuit_of source.entry) own kind.now) }
{
    let net = operand(source, own);
    let name = text_of(alloc, net.called);
    match kind {
        NetKind::Comb { .. } | NetKind::Unit { .. } => {
            put_declaration(out, false, net.signed, net.width, name);
        }
        NetKind::Reg { .. }
        | NetKind::EnReg { .. }
        | NetKind::Acc { .. }
        | NetKind::Counter { .. } => {
            put_declaration(out, true, net.signed, net.width, name);
        }
        NetKind::Bridge { .. } => {
            let held = numbered(alloc, b"fx_h", own);
            put_declaration(out, false, net.signed, net.width, name);
            put_declaration(out, true, net.signed, net.width, held);
        }
    }
}

/// The drivers of a net of this kind that is no Unit.
fn drive(alloc: Global, out: &mut Listing<ModItem>, source: Source, own: usize, kind: &NetKind)
    requires { HasKind source own kind.now }
    ensures { Lists out.old out.new
        (map gated_item (others_at (circuit_of source.entry) own kind.now)) }
{
    match kind {
        NetKind::Unit { .. } => {}
        NetKind::Comb { op, args } => put_comb(alloc, out, source, own, *op, args.as_slice()),
        NetKind::Counter { frame } => put_counter(alloc, out, source, own, *frame),
        NetKind::Reg {
            frame,
            slot,
            first,
            from,
        } => put_reg(alloc, out, source, own, *frame, *slot, *first, *from),
        NetKind::EnReg {
            frame,
            enable,
            reset,
            first,
            from,
        } => put_enabled(
            alloc, out, source, own, *frame, *enable, *reset, *first, *from,
        ),
        NetKind::Acc {
            frame,
            enable,
            from,
        } => put_accumulator(alloc, out, source, own, *frame, *enable, *from),
        NetKind::Bridge { frame, live, from } => {
            put_bridge(alloc, out, source, own, *frame, *live, *from);
        }
    }
}

/// Puts the items of a net in a part of the module.
fn put_net(alloc: Global, out: &mut Listing<ModItem>, source: Source, part: Part, own: usize)
    requires { IsNet source own }
    ensures { Lists out.old out.new (net_items source.entry part own) }
{
    let net = &source.netlist.nets()[own];
    match part {
        Part::Declarations => declare(alloc, out, source, own, &net.kind),
        Part::Units => {
            if let NetKind::Unit { left, right } = &net.kind {
                put_unit(alloc, out, source, own, *left, *right);
            }
        }
        Part::Others => drive(alloc, out, source, own, &net.kind),
    }
}

/// Puts the items of all nets in a part of the module.
fn put_nets(alloc: Global, out: &mut Listing<ModItem>, source: Source, part: Part)
    requires { IsSource source }
    ensures { Lists out.old out.new (first_in source.entry part (net_count source.entry)) }
{
    for own in 0..source.netlist.nets().len() {
        put_net(alloc, out, source, part, own);
    }
}

fn show_outputs(alloc: Global, out: &mut Listing<ModItem>, source: Source)
    requires { IsSource source }
    ensures { Lists out.old out.new (all_shown source.entry) }
{
    for output in source.netlist.outputs() {
        let name = Text::copy(alloc, output.name.bytes());
        let value = operand_name(alloc, operand(source, output.net as usize));
        put_assignment(out, name, value);
    }
}

/// All items, in order.
pub fn items_of(alloc: Global, source: Source) -> Listing<ModItem>
    requires { IsSource source }
    ensures { Holds result
        (map gated_item (items_of (circuit_of source.entry) ++ shows_enable ∷ [])) }
{
    let mut out = begin(alloc);
    put_nets(alloc, &mut out, source, Part::Declarations);
    put_nets(alloc, &mut out, source, Part::Units);
    put_nets(alloc, &mut out, source, Part::Others);
    show_outputs(alloc, &mut out, source);
    let value = enable(alloc);
    put_assignment(&mut out, Text::copy(alloc, b"ce_out"), value);
    out
}
