//! What the types of an operation allow.
ghost use Rattle.std.specs.Prelude.{◌≡◌, ◌≤◌, false, ℤ, ◌+ℤ◌, IfSome};
ghost use Rattle.fx_type.specs.declared.kind.FxType.{FxType};
ghost use Rattle.fx_type.specs.FxType.{IsType, frac_of};
ghost use Rattle.fx_type.specs.FullType.{IsFullProduct};
ghost use Rattle.dg_model.specs.declared.kind.Criterion.{Criterion};
ghost use Rattle.dg_model.specs.declared.op.Op.TheVariants.{Sum, Gain, Product, Switch, Convert};
ghost use Rattle.dg_model.specs.Operation.{operation_of, CanPrepare};
ghost use Rattle.dg_blocks.specs.Narrow.{magnitude_of};
ghost use Rattle.dg_blocks.specs.Prepared.{IsReady, IsPrepared, product_bits};

use crate::exact::product_frac;
use crate::narrow::{Narrow, short};
use crate::prepared::Prepared;
use crate::short_sums::are_short;
use dg_model::{OpCall, sum_type};
use fx_type::FxType;

/// How many bits a type's stored integers have beside a sign.
fn magnitude(kind: FxType) -> u32
    requires { IsType kind }
    ensures is { result ≡ magnitude_of kind }
    ensures small { result ≤ 127 }
{
    let width = u32::from(kind.width());
    if kind.is_signed() { width - 1 } else { width }
}

/// The conversion of a product of stored integers of two types.
fn product_narrow(call: &OpCall, a: FxType, b: FxType) -> Option<Narrow>
    requires left { IsType a }
    requires right { IsType b }
    requires full { (full : FxType) × IsFullProduct a b full }
    requires result { IsType call.now.result }
    ensures { IfSome result (λ narrow. IsReady (operation_of call.now) narrow
        (product_bits a b) (frac_of a +ℤ frac_of b)) }
{
    let bits = magnitude(a) + magnitude(b) + 1;
    let frac = product_frac(a, b);
    Narrow::new(bits, frac, call.result, call.rounding, call.saturate)
}

/// Of a Sum.
pub fn prepared_sum(call: &OpCall) -> Prepared
    requires can { CanPrepare (operation_of call.now) }
    requires is_sum { call.now.op ≡ Sum None }
    ensures { IsPrepared result (operation_of call.now) }
{
    let full = sum_type(call.signs, call.types);
    let bits = magnitude(full);
    let frac = full.frac();
    if !are_short(frac, call.types) {
        return Prepared::Wide;
    }
    match Narrow::new(bits, frac, call.result, call.rounding, call.saturate) {
        Some(narrow) => Prepared::Summed(frac, narrow),
        None => Prepared::Wide,
    }
}

/// Of a Gain.
pub fn prepared_gain(call: &OpCall, coefficient: i128, param: FxType) -> Prepared
    requires can { CanPrepare (operation_of call.now) }
    requires is_gain { call.now.op ≡ Gain coefficient param }
    ensures { IsPrepared result (operation_of call.now) }
{
    match product_narrow(call, call.types[0], param) {
        Some(narrow) => Prepared::Scaled(short(coefficient), narrow),
        None => Prepared::Wide,
    }
}

/// Of a Product.
pub fn prepared_product(call: &OpCall) -> Prepared
    requires can { CanPrepare (operation_of call.now) }
    requires is_product { call.now.op ≡ Product }
    ensures { IsPrepared result (operation_of call.now) }
{
    match product_narrow(call, call.types[0], call.types[1]) {
        Some(narrow) => Prepared::Times(narrow),
        None => Prepared::Wide,
    }
}

/// Of a Switch.
pub fn prepared_switch(call: &OpCall) -> Prepared
    requires can { CanPrepare (operation_of call.now) }
    requires is_switch { (criterion : Criterion) × (threshold : ℤ)
        × (call.now.op ≡ Switch criterion threshold) }
    ensures { IsPrepared result (operation_of call.now) }
{
    let (first, third) = (call.types[0], call.types[2]);
    if first.frac() != third.frac() {
        return Prepared::Wide;
    }
    let bits = magnitude(first).max(magnitude(third));
    let frac = first.frac();
    match Narrow::new(bits, frac, call.result, call.rounding, call.saturate) {
        Some(narrow) => Prepared::Chosen(narrow),
        None => Prepared::Wide,
    }
}

/// Of a Data Type Conversion that keeps the real value.
pub fn prepared_conversion(call: &OpCall) -> Prepared
    requires can { CanPrepare (operation_of call.now) }
    requires is_convert { call.now.op ≡ Convert false }
    ensures { IsPrepared result (operation_of call.now) }
{
    let a = call.types[0];
    let bits = magnitude(a);
    match Narrow::new(bits, a.frac(), call.result, call.rounding, call.saturate) {
        Some(narrow) => Prepared::Converted(narrow),
        None => Prepared::Wide,
    }
}
