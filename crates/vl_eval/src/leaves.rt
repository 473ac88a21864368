ghost use Rattle.vl_ast.specs.declared.expressions.Expr.TheVariants.{Bit, Literal, Name, Part};
ghost use Rattle.vl_eval.specs.inner.Site.{CanBuild, IsBuilt};

use crate::adding::{Additions, extend, push};
use crate::operators::literal;
use crate::ops::{OneOp, Op};
use crate::site::{Site, slot};
use vl_ast::{Sized, mask_of};
use vl_check::{Shape, net};

/// Adds what extends a name, where it is signed, and gives the place of its value.
pub fn build_name(ops: &mut Additions, site: &Site<'_, '_>, name: &[u8], context: Shape) -> usize
    requires { CanBuild site.now ops.old context.length (Name name.now) }
    ensures { IsBuilt site.now ops.old ops.new context (Name name.now) result }
{
    let part = slot(site, name);
    if !context.signed {
        return part;
    }
    let length = net(site.scope, name).length;
    extend(ops, site.base, part, length, context.length)
}

/// Adds the operation of a bit, and gives the place of its value.
pub fn build_bit(
    ops: &mut Additions,
    site: &Site<'_, '_>,
    name: &[u8],
    low: u32,
    context: Shape,
) -> usize
    requires { CanBuild site.now ops.old context.length (Bit name.now low) }
    ensures { IsBuilt site.now ops.old ops.new context (Bit name.now low) result }
{
    let part = slot(site, name);
    let bit = OneOp::Select { low, mask: 1 };
    push(ops, site.base, Op::One(bit, part))
}

/// Adds the operation of a part, and gives the place of its value.
pub fn build_part(
    ops: &mut Additions,
    site: &Site<'_, '_>,
    name: &[u8],
    high: u32,
    low: u32,
    context: Shape,
) -> usize
    requires { CanBuild site.now ops.old context.length (Part name.now high low) }
    ensures { IsBuilt site.now ops.old ops.new context (Part name.now high low) result }
{
    let part = slot(site, name);
    let mask = mask_of(high - low + 1);
    push(ops, site.base, Op::One(OneOp::Select { low, mask }, part))
}

/// Adds a number, and gives the place of its value.
pub fn build_literal(
    ops: &mut Additions,
    site: &Site<'_, '_>,
    number: &Sized,
    context: Shape,
) -> usize
    requires { CanBuild site.now ops.old context.length (Literal number.now) }
    ensures { IsBuilt site.now ops.old ops.new context (Literal number.now) result }
{
    let bits = literal(number, context.length, context.signed);
    push(ops, site.base, Op::Constant(bits))
}
