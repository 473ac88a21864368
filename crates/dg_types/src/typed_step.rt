//! The type that a block takes from those of its inputs: one function for each choice of a kind's
//! row.
ghost use Rattle.std.specs.Prelude.{◌≡◌, ◌≤◌, All, length, None, true};
ghost use Rattle.fx_type.specs.FullTypeOf.{full_sum_of};
ghost use Rattle.fx_type.specs.FxType.{IsType};
ghost use Rattle.dg_model.specs.Attributes.{coefficient_type as coefficient_type_of};
ghost use Rattle.dg_model.specs.GainParam.{param_type_of};
ghost use Rattle.dg_model.specs.KindRow.{FullRule as FullRuleOf, IsSpec};
ghost use Rattle.dg_model.specs.Library.{row_of};
ghost use Rattle.dg_model.specs.Periods.{known_at};
ghost use Rattle.dg_model.specs.TypeRounds.{with_known, specified_type, stepped as stepped_of, sum_named as sum_named_of, full_type as full_type_of, internal_type as internal_type_of, own_type as own_type_of, taken_type as taken_type_of};
ghost use Rattle.dg_types.specs.inner.TypeInputs.{source_types, IsKnownValid, CanRead, is_ready, is_full_ready, paired_of};

use crate::linked::Source;
use crate::typed_param::param_type;
use dg_model::{Block, FullRule, Kind, OwnType};
use fx_type::{Decimal, FxType, TypeSpec, full_product, full_sum, union};

/// The type that an input reads, from 0; none where it isn't known or there is no such input.
pub fn input_at(values: &[Option<FxType>], sources: &[Source], input: usize) -> Option<FxType>
    requires { CanRead values.now sources.now }
    ensures value { result ≡ known_at (source_types values.now sources.now) input }
    ensures valid { IsKnownValid result }
{
    match sources.get(input) {
        Some(source) => values[source.block as usize],
        None => None,
    }
}

/// The type of a sum, where it is valid.
fn sum_of(terms: &[(bool, FxType)]) -> Option<FxType>
    requires valid { All (λ term. IsType term.1) terms.now }
    requires some { 1 ≤ length terms.now }
    requires few { length terms.now ≤ 32 }
    ensures { result ≡ full_sum_of terms.now }
{
    fx_type::full_sum_is_one();
    full_sum(terms).ok()
}

/// What is made of two types.
#[derive(Clone, Copy)]
enum Pairing {
    /// Their full product.
    Product,
    /// The union of a choice between them.
    Union,
}

/// The type that two make, where it is valid.
fn pair_type(how: Pairing, left: FxType, right: FxType) -> Option<FxType>
    requires left { IsType left }
    requires right { IsType right }
    ensures { result ≡ paired_of how left right }
{
    match how {
        Pairing::Product => {
            fx_type::full_product_is_one();
            full_product(left, right).ok()
        }
        Pairing::Union => {
            fx_type::union_is_one();
            union(left, right).ok()
        }
    }
}

/// The type of an accumulator, where each of its steps has a full sum that is valid.
fn stepped(accum: FxType, terms: &[(bool, FxType)]) -> Option<FxType>
    requires accum { IsType accum }
    requires valid { All (λ term. IsType term.1) terms.now }
    ensures { result ≡ stepped_of accum terms.now }
{
    for (negative, kind) in terms {
        if sum_of(&[(false, accum), (*negative, *kind)]).is_none() {
            return None;
        }
    }
    Some(accum)
}

/// What a sum of known terms names: its full sum, or the type in which it is added up.
fn sum_named(accum: TypeSpec, terms: &[(bool, FxType)]) -> Option<FxType>
    requires accum { IsSpec accum }
    requires valid { All (λ term. IsType term.1) terms.now }
    requires some { 1 ≤ length terms.now }
    requires few { length terms.now ≤ 32 }
    ensures { result ≡ sum_named_of accum terms.now }
{
    match accum {
        TypeSpec::Fixed(kind) => stepped(kind, terms),
        TypeSpec::Internal => sum_of(terms),
        TypeSpec::SameFirst => stepped(terms[0].1, terms),
        TypeSpec::Auto => None,
    }
}

/// What the sum of all inputs names.
fn sum_at(
    negative: &[bool],
    accum: TypeSpec,
    values: &[Option<FxType>],
    sources: &[Source],
) -> Option<FxType>
    requires read { CanRead values.now sources.now }
    requires all { length negative.now ≡ length sources.now }
    requires some { 1 ≤ length negative.now }
    requires few { length negative.now ≤ 32 }
    requires accum { IsSpec accum }
    ensures { result ≡ full_type_of (FullRuleOf.FullSum negative.now accum)
        (source_types values.now sources.now) }
{
    let mut terms = [(false, FxType::Logical); 32];
    for (input, subtracted) in negative.iter().enumerate() {
        let Some(kind) = input_at(values, sources, input) else {
            return None;
        };
        terms[input] = (*subtracted, kind);
    }
    sum_named(accum, &terms[..negative.len()])
}

/// The full product of input 1 and coefficients.
fn scaled_at(
    value: &[Decimal],
    param: TypeSpec,
    values: &[Option<FxType>],
    sources: &[Source],
) -> Option<FxType>
    requires read { CanRead values.now sources.now }
    requires param { IsSpec param }
    ensures { result ≡ full_type_of (FullRuleOf.FullScaled value.now param)
        (source_types values.now sources.now) }
{
    let Some(input) = input_at(values, sources, 0) else {
        return None;
    };
    let Some(kind) = param_type(value, param, input) else {
        return None;
    };
    pair_type(Pairing::Product, input, kind)
}

/// The type that input 1 and another make.
fn paired_at(
    how: Pairing,
    values: &[Option<FxType>],
    sources: &[Source],
    other: usize,
) -> Option<FxType>
    requires { CanRead values.now sources.now }
    ensures { let types = source_types values.now sources.now in
        result ≡ with_known (known_at types 0)
        (λ left. with_known (known_at types other) (paired_of how left)) }
{
    let Some(left) = input_at(values, sources, 0) else {
        return None;
    };
    let Some(right) = input_at(values, sources, other) else {
        return None;
    };
    pair_type(how, left, right)
}

/// The full type or union that a kind's equation names of these inputs, where the types that it
/// needs are known and it is valid.
pub fn full_type(kind: &Kind, values: &[Option<FxType>], sources: &[Source]) -> Option<FxType>
    requires read { CanRead values.now sources.now }
    requires ready { is_full_ready (row_of kind.now).types.full (length sources.now) ≡ true }
    ensures { result ≡ full_type_of (row_of kind.now).types.full
        (source_types values.now sources.now) }
{
    match kind.full() {
        FullRule::NoFull => None,
        FullRule::FullSum { negative, accum } => sum_at(negative, accum, values, sources),
        FullRule::FullScaled { value, param } => scaled_at(value, param, values, sources),
        FullRule::FullProduct => paired_at(Pairing::Product, values, sources, 1),
        FullRule::UnionOfTwo => paired_at(Pairing::Union, values, sources, 1),
        FullRule::UnionOfEnds => paired_at(Pairing::Union, values, sources, 2),
    }
}

/// The type that a specification of a coefficient or of an accumulator takes of input 1, or writes
/// out; none under the internal rule.
fn chosen_type(spec: TypeSpec, first: Option<FxType>) -> Option<FxType>
    ensures { result ≡ specified_type spec None first None }
{
    match spec {
        TypeSpec::Fixed(kind) => Some(kind),
        TypeSpec::SameFirst => first,
        TypeSpec::Internal | TypeSpec::Auto => None,
    }
}

/// The type that the internal rule gives: that of the accumulator, where a sum has one, and else
/// what the equation names.
fn internal_type(kind: &Kind, values: &[Option<FxType>], sources: &[Source]) -> Option<FxType>
    requires read { CanRead values.now sources.now }
    requires ready { is_full_ready (row_of kind.now).types.full (length sources.now) ≡ true }
    ensures { result ≡ internal_type_of (row_of kind.now).types.full
        (source_types values.now sources.now) }
{
    if let FullRule::FullSum { accum, .. } = kind.full() {
        if !matches!(accum, TypeSpec::Internal) {
            return chosen_type(accum, input_at(values, sources, 0));
        }
    }
    full_type(kind, values, sources)
}

/// The type that a kind has of itself.
fn own_type(kind: &Kind, values: &[Option<FxType>], sources: &[Source]) -> Option<FxType>
    requires { CanRead values.now sources.now }
    ensures { result ≡ own_type_of (row_of kind.now).types.own
        (source_types values.now sources.now) }
{
    match kind.row().own {
        OwnType::Untyped => None,
        OwnType::Always { kind: own } => Some(own),
        OwnType::OfInput => input_at(values, sources, 0),
    }
}

/// The type that a block takes, where the types that it needs are known.
pub fn taken_type(block: &Block, values: &[Option<FxType>], sources: &[Source]) -> Option<FxType>
    requires read { CanRead values.now sources.now }
    requires ready { is_ready block.now (length sources.now) ≡ true }
    ensures { result ≡ taken_type_of block.now.kind block.now.result
        (source_types values.now sources.now) }
{
    match block.result {
        TypeSpec::Fixed(kind) => Some(kind),
        TypeSpec::Internal => internal_type(&block.kind, values, sources),
        TypeSpec::SameFirst => input_at(values, sources, 0),
        TypeSpec::Auto => own_type(&block.kind, values, sources),
    }
}

/// The type of a block's coefficients or accumulator, where it has any and the type of its first
/// input is known.
pub fn coefficient_type(
    kind: &Kind,
    values: &[Option<FxType>],
    sources: &[Source],
) -> Option<FxType>
    requires read { CanRead values.now sources.now }
    requires ready { is_full_ready (row_of kind.now).types.full (length sources.now) ≡ true }
    ensures { result ≡ coefficient_type_of (row_of kind.now).types.full
        (known_at (source_types values.now sources.now) 0) }
{
    match kind.full() {
        FullRule::FullScaled { value, param } => {
            let Some(input) = input_at(values, sources, 0) else {
                return None;
            };
            param_type(value, param, input)
        }
        FullRule::FullSum { accum, .. } => chosen_type(accum, input_at(values, sources, 0)),
        FullRule::NoFull | FullRule::FullProduct | FullRule::UnionOfTwo | FullRule::UnionOfEnds =>
            None,
    }
}
