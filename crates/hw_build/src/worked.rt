//! Elements that operations of their blocks give.
ghost use Rattle.std.specs.Prelude.{◌≡◌, false, Some, IfOk, MatchOption};
ghost use Rattle.dg_model.specs.declared.kind.Kind.{Kind};
ghost use Rattle.hw_build.specs.inner.DesignTimes.{timing_for};
ghost use Rattle.hw_build.specs.inner.Entries.{IsFullProductAt, PutsShared, works};
ghost use Rattle.hw_build.specs.inner.Sites.{IsOpAt, IsReady, IsSite, Puts, types_at};

use crate::controls::some_above;
use crate::design::Design;
use crate::entry::{Entry, Made, plain};
use crate::firsts::list_of;
use crate::lowering::{multiply_behind, parameter_value};
use crate::site::Site;
use dg_model::{Block, Kind, Op, OpCall, accumulator};
use dg_tables::{Place, operations_prepare};
use fx_type::FxType;
use hw_lower::lower;
use hw_net::Netlist;
use std::alloc::Global;

/// The operation of an element, if its block carries one out.
pub fn op_of<'a>(site: Site<'a>) -> Option<Op>
    requires shown { IsSite site }
    requires types { site.types.now ≡ types_at site }
    ensures { MatchOption result (works site.entry.one.now.kind ≡ false) (IsOpAt site.entry) }
{
    site.design.checked.keeps_rules();
    operations_prepare();
    let list = list_of(&site.one.kind);
    match &site.one.kind {
        Kind::Sum { accum, .. } => {
            let own = site.design.checked.param(site.place.block);
            Some(Op::Sum {
                accum: accumulator(*accum, own),
            })
        }
        Kind::Gain { .. } => {
            let param = site.design.checked.param(site.place.block);
            let coefficient = parameter_value(site, list, param);
            Some(Op::Gain { coefficient, param })
        }
        Kind::Product => Some(Op::Product),
        Kind::Switch { criterion, .. } => {
            let threshold = parameter_value(site, list, site.types[1]);
            Some(Op::Switch {
                criterion: *criterion,
                threshold,
            })
        }
        Kind::Relational { operator: by } => Some(Op::Relational { operator: *by }),
        Kind::Logic { operator: by } => Some(Op::Logic { operator: *by }),
        Kind::Convert { stored } => Some(Op::Convert { stored: *stored }),
        Kind::Pass { .. } | Kind::Outport { .. } => Some(Op::Pass),
        Kind::Inport { .. }
        | Kind::Constant { .. }
        | Kind::Ground
        | Kind::Delay { .. }
        | Kind::Mux { .. }
        | Kind::Demux { .. }
        | Kind::RateTransition { .. }
        | Kind::EnableTest
        | Kind::EnOut { .. }
        | Kind::Terminator => None,
    }
}

/// Puts in an element that an operation of its block gives.
pub fn put_operation<'a>(alloc: Global, net: &mut Netlist, site: Site<'a>, op: Op) -> Made
    requires ready { IsReady net.old site }
    requires op { IsOpAt site op }
    ensures { IfOk result (Puts site.entry net.old net.new) }
{
    let checked = site.design.checked;
    checked.keeps_rules();
    operations_prepare();
    let multiply = multiply_behind(net, op)?;
    let kind = checked.result(site.place.block);
    let signs = site.one.kind.signs();
    let call = OpCall {
        op,
        signs,
        types: site.types,
        result: kind,
        rounding: site.one.rounding,
        saturate: site.one.saturate,
    };
    let number = lower(alloc, net, &call, site.operands)?;
    Ok(Entry {
        net: number,
        state: number,
        multiply,
    })
}

/// Puts in the element of the control of an enabled subsystem.
pub fn put_enable_test<'a>(alloc: Global, net: &mut Netlist, site: Site<'a>) -> Made
    requires ready { IsReady net.old site }
    requires kind { site.one.now.kind ≡ Kind.EnableTest }
    ensures { IfOk result (Puts site.entry net.old net.new) }
{
    site.design.checked.keeps_rules();
    operations_prepare();
    let own = site.design.checked.result(site.place.block);
    let _ = own;
    let number = some_above(alloc, net, site.types[0], site.operands)?;
    Ok(plain(number))
}

/// Puts in an element of a shared block: the product of a shared multiplier, in the type that holds
/// all of these, converted to that of the block.
pub fn put_shared<'a>(
    alloc: Global,
    net: &mut Netlist,
    design: Design<'a>,
    place: Place,
    one: &Block,
    full: FxType,
    product: u32,
) -> Made
    requires { IsFullProductAt design.checked.now.diagram net.old place.block one.now full product }
    ensures { IfOk result (PutsShared design.entry.checked.now.diagram (timing_for design.entry)
        net.old net.new place.block one.now place.port place.element product) }
{
    design.checked.keeps_rules();
    operations_prepare();
    let own = design.checked.result(place.block);
    let call = OpCall {
        op: Op::Convert { stored: false },
        signs: &[],
        types: &[full],
        result: own,
        rounding: one.rounding,
        saturate: one.saturate,
    };
    let number = lower(alloc, net, &call, &[product])?;
    Ok(plain(number))
}
