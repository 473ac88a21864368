//! Elements that are kept in registers of their own.
ghost use Rattle.std.specs.Prelude.{◌≡◌, ◌∷◌, ◌<◌, ◌≤◌, [], true, false, All, None, Some, IfOk, length, slice_get};
ghost use Rattle.dg_model.specs.declared.kind.Kind.{Kind};
ghost use Rattle.dg_model.specs.Attributes.{attributes_of};
ghost use Rattle.dg_model.specs.declared.row.Inherited.{Inherited};
ghost use Rattle.dg_model.specs.Library.{row_of};
ghost use Rattle.dg_model.specs.Wires.{period_into};
ghost use Rattle.hw_build.specs.inner.Series.{enables_by};
ghost use Rattle.hw_build.specs.inner.Sites.{CanKeep, HasEnabledOperands, HasOperands, IsKept, IsSite, PassesOut, Puts, TakesAs};

use crate::entries::offered_entry;
use crate::entry::{Entry, Made, plain};
use crate::laws::schedules_are_timed;
use crate::lowering::initial;
use crate::operands::line_into;
use crate::parts::{put_comb, put_const};
use crate::pipelines::{last_slot, own_frame_of};
use crate::site::Site;
use crate::states::{Enabled, Series, put_series};
use dg_model::{Block, Checked};
use fx_io::OutOfMemory;
use fx_type::Decimal;
use hw_net::{NetOp, Netlist};
use hw_sched::periods_are_above;
use std::alloc::Global;

/// Puts in so many registers of an element's own behind its first operand, which begin with its entry
/// of a list.
fn put_kept<'a>(
    net: &mut Netlist,
    site: Site<'a>,
    count: u32,
    list: &[Decimal],
    enabled: Option<Enabled>,
) -> Result<Series, OutOfMemory>
    requires can { CanKeep net.old site }
    requires list { (row_of site.one.now.kind).signal.lists ≡ list.now ∷ [] }
    requires moves { (row_of site.one.now.kind).timing.inherits ≡ Inherited.Moving }
    requires some { 1 ≤ count }
    requires operands { HasEnabledOperands net.old site }
    requires enabled { All (λ read. read < length net.old.nets) (enables_by enabled) }
    ensures { IfOk result (IsKept site.entry list.now count enabled net.old net.new) }
{
    let (design, block) = (site.design, site.place.block);
    periods_are_above();
    schedules_are_timed();
    let begun = initial(site, list);
    let period = design.checked.period(block).unwrap();
    let frame = own_frame_of(design, block, period);
    let slot = last_slot(design, block, period);
    let from = site.operands[0];
    put_series(
        net,
        begun.word,
        frame,
        slot,
        enabled,
        count,
        begun.first,
        from,
    )
}

/// Puts in an element of a Delay that is kept in registers of its own.
fn keep<'a>(
    net: &mut Netlist,
    site: Site<'a>,
    count: u32,
    initial: &[Decimal],
    reset: bool,
    enabled: Option<Enabled>,
) -> Made
    requires can { CanKeep net.old site }
    requires kind { site.one.now.kind ≡ Kind.Delay count initial.now reset }
    requires operands { HasEnabledOperands net.old site }
    requires enabled { TakesAs site reset enabled }
    ensures { IfOk result (Puts site.entry net.old net.new) }
{
    let series = put_kept(net, site, count, initial, enabled)?;
    Ok(Entry {
        net: series.last,
        state: series.first,
        multiply: None,
    })
}

/// Puts in an element of an output port of an enabled subsystem that keeps what it had.
fn pass_held<'a>(alloc: Global, net: &mut Netlist, site: Site<'a>, initial: &[Decimal]) -> Made
    requires can { CanKeep net.old site }
    requires out { PassesOut net.old site false initial.now }
    ensures { IfOk result (Puts site.entry net.old net.new) }
{
    let (from, enable) = (site.operands[0], site.operands[1]);
    let enabled = Enabled {
        enable,
        reset: false,
    };
    let series = put_kept(net, site, 1, initial, Some(enabled))?;
    let reads = [enable, from, series.last];
    let chosen = put_comb(alloc, net, series.word, NetOp::Choose, &reads)?;
    Ok(Entry {
        net: chosen,
        state: series.first,
        multiply: None,
    })
}

/// Puts in an element of an output port of an enabled subsystem that has its initial value where
/// that isn't enabled.
fn pass_reset<'a>(alloc: Global, net: &mut Netlist, site: Site<'a>, list: &[Decimal]) -> Made
    requires shown { IsSite site }
    requires out { PassesOut net.old site true list.now }
    ensures { IfOk result (Puts site.entry net.old net.new) }
{
    let begun = initial(site, list);
    let constant = put_const(alloc, net, begun.word, begun.first)?;
    let reads = [site.operands[1], site.operands[0], constant];
    let chosen = put_comb(alloc, net, begun.word, NetOp::Choose, &reads)?;
    Ok(plain(chosen))
}

/// The period of what drives the first input of a block.
fn driver_period(checked: &Checked, block: u32, one: &Block) -> Option<u32>
    requires is { slice_get checked.now.diagram.blocks block ≡ Some one.now }
    requires some { 1 ≤ one.now.inputs }
    ensures { result ≡ period_into checked.now.diagram (attributes_of checked.now.diagram) block 1 }
{
    checked.keeps_rules();
    let line = line_into(checked, block, 1, one);
    checked.period(line.from)
}

/// Puts in an element of a Delay: what its line shows, or the last of registers of its own.
pub fn put_delay<'a>(
    net: &mut Netlist,
    site: Site<'a>,
    count: u32,
    initial: &[Decimal],
    reset: bool,
) -> Made
    requires can { CanKeep net.old site }
    requires kind { site.one.now.kind ≡ Kind.Delay count initial.now reset }
    requires operands { HasOperands net.old site site.one.now.kind }
    ensures { IfOk result (Puts site.entry net.old net.new) }
{
    match site.one.enable {
        Some(_) => {
            let by = Enabled {
                enable: site.operands[1],
                reset,
            };
            keep(net, site, count, initial, reset, Some(by))
        }
        None => match driver_period(site.design.checked, site.place.block, site.one) {
            Some(_) => Ok(offered_entry(net, site)),
            None => keep(net, site, count, initial, reset, None),
        },
    }
}

/// Puts in an element of an output port of an enabled subsystem: its input where that is enabled,
/// and else its initial value or what it had.
pub fn pass_out<'a>(
    alloc: Global,
    net: &mut Netlist,
    site: Site<'a>,
    initial: &[Decimal],
    reset: bool,
) -> Made
    requires can { CanKeep net.old site }
    requires kind { site.one.now.kind ≡ Kind.EnOut reset initial.now }
    requires operands { HasOperands net.old site site.one.now.kind }
    ensures { IfOk result (Puts site.entry net.old net.new) }
{
    if reset {
        pass_reset(alloc, net, site, initial)
    } else {
        pass_held(alloc, net, site, initial)
    }
}
