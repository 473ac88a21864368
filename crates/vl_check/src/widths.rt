ghost use Rattle.std.specs.Prelude.{◌≡◌, option_map, is_some};
ghost use Rattle.vl_ast.specs.Conditions.{is_sound, is_sound_condition, is_sound_item, too_wide};
ghost use Rattle.vl_check.specs.Scope.{IsScopeOf, nets_in};

use crate::scope::Scope;
use crate::shapes::{is_number, is_width, sound_shape};
use vl_ast::{Expr, ModItem, Module};

fn is_sound(scope: &Scope<'_>, e: &Expr) -> bool
    ensures { result ≡ is_sound (nets_in scope.now) e.now }
{
    sound_shape(scope, e).is_some()
}

fn is_sound_condition(scope: &Scope<'_>, condition: &Option<Expr>) -> bool
    ensures { result ≡ is_sound_condition (nets_in scope.now) condition.now }
{
    match condition {
        None => true,
        Some(condition) => is_sound(scope, condition),
    }
}

fn is_sound_item(scope: &Scope<'_>, item: &ModItem) -> bool
    ensures { result ≡ is_sound_item (nets_in scope.now) item.now }
{
    match item {
        ModItem::Wire { width, .. } | ModItem::Reg { width, .. } => is_width(*width),
        ModItem::Assign { value, .. } => is_sound(scope, value),
        ModItem::Always {
            first,
            condition,
            value,
            ..
        } => { is_number(first) && is_sound_condition(scope, condition) && is_sound(scope, value) }
    }
}

/// The first port, wire or register whose width isn't 1 to 128, or the first item that holds a faulty
/// select, number, repetition or context.
pub fn too_wide<'a>(scope: &Scope<'_>, source: &'a Module) -> Option<&'a [u8]>
    requires { IsScopeOf source.now scope.now }
    ensures { option_map (λ name. name.now) result ≡ too_wide source.now }
{
    for port in source.ports.as_slice() {
        if !is_width(port.width) {
            return Some(port.name.bytes());
        }
    }
    for item in source.items.as_slice() {
        if !is_sound_item(scope, item) {
            return Some(item.name());
        }
    }
    None
}
