ghost use Rattle.std.specs.Prelude.{◌≡◌, ◌≤◌, true, false};
ghost use Rattle.vl_ast.specs.Conditions.{is_sound};
ghost use Rattle.vl_ast.specs.Context.{is_signed, own_length};
ghost use Rattle.vl_check.specs.Scope.{nets_in};
ghost use Rattle.vl_eval.specs.inner.Site.{slot_in};

use vl_ast::Expr;
use vl_check::{Scope, Shape, sound_shape};

/// Where the names of a module have their values, by their numbers, and where the operations begin.
#[derive(Clone, Copy)]
pub struct Site<'a, 'b> {
    pub scope: &'a Scope<'b>,
    pub slots: &'a [usize],
    pub base: usize,
}

/// Where a name has its value.
pub fn slot(site: &Site<'_, '_>, name: &[u8]) -> usize
    ensures { result ≡ slot_in site.now.scope.now site.now.slots.now name.now }
{
    let Some(number) = site.scope.number(name) else {
        return 0;
    };
    match site.slots.get(number) {
        None => 0,
        Some(slot) => *slot,
    }
}

/// The length and the sign of a sound expression.
pub fn shape_of(site: &Site<'_, '_>, e: &Expr) -> Shape
    requires { is_sound (nets_in site.now.scope.now) e.now ≡ true }
    ensures length { result.length ≡ own_length (nets_in site.now.scope.now) e.now }
    ensures sign { result.signed ≡ is_signed (nets_in site.now.scope.now) e.now }
    ensures few { result.length ≤ 128 }
{
    match sound_shape(site.scope, e) {
        Some(shape) => shape,
        None => Shape {
            length: 0,
            signed: false,
        },
    }
}

/// Where an expression has its value in the context that it makes by itself, and that context.
#[derive(Clone, Copy)]
pub struct Alone {
    pub slot: usize,
    pub shape: Shape,
}

/// A place that shows so many bits without sign.
pub fn unsigned_slot(slot: usize, length: u32) -> Alone
    ensures slot { result.slot ≡ slot }
    ensures length { result.shape.length ≡ length }
    ensures sign { result.shape.signed ≡ false }
{
    let signed = false;
    let shape = Shape { length, signed };
    Alone { slot, shape }
}
