//! The nets of elements of blocks.
ghost use Rattle.std.specs.Prelude.{◌≡◌, true, IfOk};
ghost use Rattle.dg_model.specs.declared.kind.Kind.{Kind};
ghost use Rattle.dg_model.specs.Attributes.{attributes_of};
ghost use Rattle.dg_model.specs.Wires.{period_into};
ghost use Rattle.hw_build.specs.inner.Entries.{hands_on, shows_alone};
ghost use Rattle.hw_build.specs.inner.Sites.{CanKeep, HasOperands, IsReady, IsSite, Puts};

use crate::entry::{Entry, Made, plain};
use crate::firsts::list_of;
use crate::kept::{pass_out, put_delay};
use crate::lowering::initial;
use crate::parts::{put_const, word_of};
use crate::site::Site;
use crate::worked::{op_of, put_enable_test, put_operation};
use dg_model::Kind;
use dg_tables::operations_prepare;
use fx_type::Decimal;
use hw_net::Netlist;
use std::alloc::Global;

/// An element that is what is offered.
pub fn offered_entry<'a>(net: &Netlist, site: Site<'a>) -> Entry
    requires hands { hands_on site.one.now.enable (period_into site.design.checked.now.diagram
        (attributes_of site.design.checked.now.diagram) site.place.block 1) site.one.now.kind
        ≡ true }
    requires operands { HasOperands net.now site site.one.now.kind }
    ensures { Puts site.entry net.now net.now result }
{
    plain(site.operands[0])
}

/// Puts in an element of a Constant.
fn constant<'a>(alloc: Global, net: &mut Netlist, site: Site<'a>, value: &[Decimal]) -> Made
    requires shown { IsSite site }
    requires kind { site.one.now.kind ≡ Kind.Constant value.now }
    ensures { IfOk result (Puts site.entry net.old net.new) }
{
    let begun = initial(site, value);
    let number = put_const(alloc, net, begun.word, begun.first)?;
    Ok(plain(number))
}

/// Puts in an element of a Ground.
fn ground<'a>(alloc: Global, net: &mut Netlist, site: Site<'a>) -> Made
    requires shown { IsSite site }
    requires kind { site.one.now.kind ≡ Kind.Ground }
    ensures { IfOk result (Puts site.entry net.old net.new) }
{
    site.design.checked.keeps_rules();
    operations_prepare();
    let kind = site.design.checked.result(site.place.block);
    let number = put_const(alloc, net, word_of(kind), 0)?;
    Ok(plain(number))
}

/// Puts in an element of a block that carries out no operation.
fn put_alone<'a>(alloc: Global, net: &mut Netlist, site: Site<'a>) -> Made
    requires can { CanKeep net.old site }
    requires ready { IsReady net.old site }
    requires kind { shows_alone site.one.now.kind ≡ true }
    ensures { IfOk result (Puts site.entry net.old net.new) }
{
    let list = list_of(&site.one.kind);
    match &site.one.kind {
        Kind::Inport { .. } | Kind::Mux { .. } | Kind::Demux { .. } | Kind::RateTransition { .. } =>
            Ok(offered_entry(net, site)),
        Kind::Constant { .. } => constant(alloc, net, site, list),
        Kind::Ground => ground(alloc, net, site),
        Kind::EnableTest => put_enable_test(alloc, net, site),
        Kind::Delay { length, reset, .. } => put_delay(net, site, *length, list, *reset),
        Kind::EnOut { reset, .. } => pass_out(alloc, net, site, list, *reset),
        _ => unreachable!(),
    }
}

/// Puts in an element of a block. Its operands are what the ends of the block offer to it; of the
/// control of an enabled subsystem all elements of its input, and of a block that asks whether it is
/// enabled what enables it behind the others. A Product or a Gain is one that isn't shared.
pub fn put_entry<'a>(alloc: Global, net: &mut Netlist, site: Site<'a>) -> Made
    requires can { CanKeep net.old site }
    requires ready { IsReady net.old site }
    ensures { IfOk result (Puts site.entry net.old net.new) }
{
    match op_of(site) {
        Some(op) => put_operation(alloc, net, site, op),
        None => put_alone(alloc, net, site),
    }
}
