ghost use Rattle.std.specs.Prelude.{◌≡◌, ◌≤◌, ◌<◌, true, false};
ghost use Rattle.vl_ast.specs.Conditions.{is_number, is_sound, is_sound_condition};
ghost use Rattle.vl_ast.specs.Nets.{condition_names, names_read};
ghost use Rattle.vl_ast.specs.Value.{assigned_number};
ghost use Rattle.vl_check.specs.Scope.{nets_in};
ghost use Rattle.vl_eval.specs.inner.PlaceBits.{IfFine};
ghost use Rattle.vl_eval.specs.inner.Site.{ArePlaced};
ghost use Rattle.vl_eval.specs.inner.Assigns.{Assigns, Captures, Tests, next_names};

use crate::adding::{Additions, push};
use crate::building::build;
use crate::operators::literal;
use crate::ops::{OneOp, Op, Register};
use crate::site::{Site, shape_of, slot};
use vl_ast::{Expr, Sized, mask_of, meaning_by_layer};
use vl_check::{Shape, net};

/// Adds the operations of an assignment to a net of this width, and gives the place of its bits.
pub fn build_assigned(ops: &mut Additions, site: &Site<'_, '_>, e: &Expr, width: u32) -> usize
    requires sound { is_sound (nets_in site.now.scope.now) e.now ≡ true }
    requires most { width ≤ 128 }
    requires placed { ops.old.wanting ≡ false → ArePlaced site.now.base site.now.scope.now
        site.now.slots.now ops.old.code (names_read e.now) }
    ensures { IfFine ops.old ops.new (Assigns site.now.base site.now.scope.now
        site.now.slots.now ops.old.code ops.new.code result width e.now) }
{
    meaning_by_layer();
    let shape = shape_of(site, e);
    let length = shape.length.max(width);
    let signed = shape.signed;
    let slot = build(ops, site, e, Shape { length, signed });
    if shape.length <= width {
        return slot;
    }
    let mask = mask_of(width);
    push(
        ops,
        site.base,
        Op::One(OneOp::Select { low: 0, mask }, slot),
    )
}

/// Adds the operations of a condition, and gives the place of bits that aren't 0 where it is true.
fn build_condition(ops: &mut Additions, site: &Site<'_, '_>, condition: &Option<Expr>) -> usize
    requires sound { is_sound_condition (nets_in site.now.scope.now) condition.now ≡ true }
    requires placed { ops.old.wanting ≡ false → ArePlaced site.now.base site.now.scope.now
        site.now.slots.now ops.old.code (condition_names condition.now) }
    ensures { IfFine ops.old ops.new (Tests site.now.base site.now.scope.now
        site.now.slots.now ops.old.code ops.new.code result condition.now) }
{
    meaning_by_layer();
    match condition {
        None => push(ops, site.base, Op::Constant(1)),
        Some(e) => {
            let shape = shape_of(site, e);
            build(ops, site, e, shape)
        }
    }
}

/// What the assignment of a number gives a net of this width.
fn first_bits(number: &Sized, width: u32) -> u128
    requires number { is_number number.now ≡ true }
    requires most { width ≤ 128 }
    ensures { result ≡ assigned_number width number.now }
{
    let length = number.width.max(width);
    literal(number, length, number.signed) & mask_of(width)
}

/// Adds the operations of what a register takes at an edge, and gives the place of its bits.
pub fn build_next(
    ops: &mut Additions,
    site: &Site<'_, '_>,
    name: &[u8],
    first: &Sized,
    condition: &Option<Expr>,
    value: &Expr,
) -> usize
    requires number { is_number first.now ≡ true }
    requires condition { is_sound_condition (nets_in site.now.scope.now) condition.now ≡ true }
    requires value { is_sound (nets_in site.now.scope.now) value.now ≡ true }
    requires few { (nets_in site.now.scope.now name.now).width ≤ 128 }
    requires placed { ops.old.wanting ≡ false → ArePlaced site.now.base site.now.scope.now
        site.now.slots.now ops.old.code (next_names name.now condition.now value.now) }
    ensures { IfFine ops.old ops.new (Captures site.now.base site.now.scope.now
        site.now.slots.now ops.old.code ops.new.code result name.now first.now condition.now
        value.now) }
{
    meaning_by_layer();
    let width = net(site.scope, name).length;
    let test = build_condition(ops, site, condition);
    let taken = build_assigned(ops, site, value, width);
    push(
        ops,
        site.base,
        Op::Next(Register {
            reset: slot(site, b"reset"),
            first: first_bits(first, width),
            test,
            value: taken,
            kept: slot(site, name),
        }),
    )
}
