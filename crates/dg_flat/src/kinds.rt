ghost use Rattle.std.specs.Prelude.{◌≡◌, ◌↔◌, ◌∷◌, [], IsTrue, IfOk};
ghost use Rattle.dg_flat.specs.Flat.{resetting};
ghost use Rattle.dg_flat.specs.Rules.{MayStand};
ghost use Rattle.dg_model.specs.Library.{row_of};

use dg_model::{Decimals, Kind, Standing};
use fx_io::{OutOfMemory, Sequence};
use std::alloc::Global;

/// A list of its own with the same items.
fn copy_list<E: Copy>(alloc: Global, list: &[E]) -> Result<Sequence<E>, OutOfMemory>
    ensures { IfOk result (λ copy. copy ≡ list.now) }
{
    Ok(Sequence::from_vec(Vec::from_slice(alloc, list)?))
}

/// Whether a block of this kind may stand under this control.
pub fn may_stand(kind: &Kind, control: Option<u32>) -> bool
    ensures { IsTrue result ↔ MayStand (row_of kind.now).place.stands control }
{
    match kind.row().stands {
        Standing::Anywhere => true,
        Standing::Outside => control.is_none(),
        Standing::Inside => control.is_some(),
    }
}

/// The kind with a list of its own, where a Delay begins anew as told.
fn with_list(kind: &Kind, list: Decimals, resets: bool) -> Kind
    requires { (row_of kind.now).signal.lists ≡ list ∷ [] }
    ensures { result ≡ resetting resets kind.now }
{
    match kind {
        Kind::Constant { .. } => Kind::Constant { value: list },
        Kind::Gain { param, .. } => Kind::Gain {
            value: list,
            param: *param,
        },
        Kind::Switch { criterion, .. } => Kind::Switch {
            criterion: *criterion,
            threshold: list,
        },
        Kind::Delay { length, .. } => Kind::Delay {
            length: *length,
            initial: list,
            reset: resets,
        },
        Kind::RateTransition { period, .. } => Kind::RateTransition {
            period: *period,
            initial: list,
        },
        Kind::EnOut { reset, .. } => Kind::EnOut {
            reset: *reset,
            initial: list,
        },
        _ => unreachable!(),
    }
}

/// A copy of a kind that has no list of decimals.
fn copy_unlisted(alloc: Global, kind: &Kind) -> Result<Kind, OutOfMemory>
    requires { (row_of kind.now).signal.lists ≡ [] }
    ensures { IfOk result (λ copy. kind.now ≡ copy) }
{
    match kind {
        Kind::Inport { number, width } => Ok(Kind::Inport {
            number: *number,
            width: *width,
        }),
        Kind::Outport { number } => Ok(Kind::Outport { number: *number }),
        Kind::Ground => Ok(Kind::Ground),
        Kind::Sum { negative, accum } => Ok(Kind::Sum {
            negative: copy_list(alloc, negative.as_slice())?,
            accum: *accum,
        }),
        Kind::Product => Ok(Kind::Product),
        Kind::Relational { operator } => Ok(Kind::Relational {
            operator: *operator,
        }),
        Kind::Logic { operator } => Ok(Kind::Logic {
            operator: *operator,
        }),
        Kind::Convert { stored } => Ok(Kind::Convert { stored: *stored }),
        Kind::Mux { sizes } => Ok(Kind::Mux {
            sizes: copy_list(alloc, sizes.as_slice())?,
        }),
        Kind::Demux { sizes } => Ok(Kind::Demux {
            sizes: copy_list(alloc, sizes.as_slice())?,
        }),
        Kind::Pass { width } => Ok(Kind::Pass { width: *width }),
        Kind::EnableTest => Ok(Kind::EnableTest),
        Kind::Terminator => Ok(Kind::Terminator),
        _ => unreachable!(),
    }
}

/// The kind, where a Delay begins anew as told.
pub fn copy_kind(alloc: Global, kind: &Kind, resets: bool) -> Result<Kind, OutOfMemory>
    ensures { IfOk result (λ copy. copy ≡ resetting resets kind.now) }
{
    match kind.list() {
        Some(list) => Ok(with_list(kind, copy_list(alloc, list)?, resets)),
        None => copy_unlisted(alloc, kind),
    }
}
