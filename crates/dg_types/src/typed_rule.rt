//! Whether the types of a diagram keep the rule of types: its three parts, each of them a test of
//! one block.
ghost use Rattle.std.specs.Prelude.{◌≡◌, ◌↔◌, ◌≤◌, true, All, Some, IsSome, length};
ghost use Rattle.dg_model.specs.declared.diagram.Block.{Block};
ghost use Rattle.dg_model.specs.Library.{row_of};
ghost use Rattle.dg_model.specs.Types.{names_full_type as names_full_type_of};
ghost use Rattle.dg_model.specs.TypeRounds.{full_type as full_type_of};
ghost use Rattle.dg_model.specs.TypeRule.{AreOne, IsDrivers, AgreesWith, AgreeInside};
ghost use Rattle.dg_types.specs.inner.TypeInputs.{source_types, CanRead, is_ready};

use crate::linked::Source;
use crate::typed_step::{full_type, input_at};
use dg_model::{Block, FullRule, Kind, Role, Shape};
use fx_type::{FxType, TypeSpec};

/// Whether the equation of a block names a full type or union.
fn names_full_type(block: &Block) -> bool
    ensures { result ≡ names_full_type_of block.now.kind block.now.result }
{
    match block.kind.full() {
        FullRule::NoFull => false,
        FullRule::FullSum { .. }
        | FullRule::FullScaled { .. }
        | FullRule::FullProduct
        | FullRule::UnionOfTwo => true,
        FullRule::UnionOfEnds => matches!(block.result, TypeSpec::Internal),
    }
}

/// Whether a type is known.
pub fn is_known(kind: Option<FxType>) -> bool
    ensures { (result ≡ true) ↔ IsSome kind }
{
    kind.is_some()
}

/// Whether two types are the same, both known or both not.
fn is_same(left: Option<FxType>, right: Option<FxType>) -> bool
    ensures { (result ≡ true) ↔ (left ≡ right) }
{
    left == right
}

/// Whether the types of all inputs are known.
pub fn are_known(values: &[Option<FxType>], sources: &[Source]) -> bool
    requires { CanRead values.now sources.now }
    ensures { (result ≡ true) ↔ All IsSome (source_types values.now sources.now) }
{
    for source in sources {
        if !is_known(values[source.block as usize]) {
            return false;
        }
    }
    true
}

/// Whether each input has this type.
fn are_all(kind: Option<FxType>, values: &[Option<FxType>], sources: &[Source]) -> bool
    requires { CanRead values.now sources.now }
    ensures { (result ≡ true) ↔
        All (λ input. input ≡ kind) (source_types values.now sources.now) }
{
    for source in sources {
        if !is_same(values[source.block as usize], kind) {
            return false;
        }
    }
    true
}

/// Whether what the equation of a block names is valid, where all input types are known.
pub fn is_narrow(block: &Block, values: &[Option<FxType>], sources: &[Source]) -> bool
    requires read { CanRead values.now sources.now }
    requires ready { is_ready block.now (length sources.now) ≡ true }
    ensures { let types = source_types values.now sources.now in
        (result ≡ true) ↔ (names_full_type_of block.now.kind block.now.result ≡ true →
        All IsSome types → IsSome (full_type_of (row_of block.now.kind).types.full types)) }
{
    if names_full_type(block) && are_known(values, sources) {
        full_type(&block.kind, values, sources).is_some()
    } else {
        true
    }
}

/// Whether the types of the outputs, if there are any, and of the inputs of a block are known.
pub fn has_types(
    block: &Block,
    own: Option<FxType>,
    values: &[Option<FxType>],
    sources: &[Source],
) -> bool
    requires { CanRead values.now sources.now }
    ensures { (result ≡ true) ↔ ((1 ≤ block.now.outputs → IsSome own) ×
        All IsSome (source_types values.now sources.now)) }
{
    if block.outputs > 0 && !is_known(own) {
        false
    } else {
        are_known(values, sources)
    }
}

/// Whether a type that is written out is that of each input.
fn is_drivers(spec: TypeSpec, values: &[Option<FxType>], sources: &[Source]) -> bool
    requires { CanRead values.now sources.now }
    ensures { (result ≡ true) ↔ IsDrivers spec (source_types values.now sources.now) }
{
    match spec {
        TypeSpec::Fixed(kind) => are_all(Some(kind), values, sources),
        TypeSpec::Internal | TypeSpec::SameFirst | TypeSpec::Auto => true,
    }
}

/// Whether all inputs have the type of the first.
fn are_one(values: &[Option<FxType>], sources: &[Source]) -> bool
    requires { CanRead values.now sources.now }
    ensures { (result ≡ true) ↔ AreOne (source_types values.now sources.now) }
{
    are_all(input_at(values, sources, 0), values, sources)
}

/// Whether the type that a port writes out is its driver's.
fn agrees_with(block: &Block, values: &[Option<FxType>], sources: &[Source]) -> bool
    requires { CanRead values.now sources.now }
    ensures { (result ≡ true) ↔ AgreesWith (row_of block.now.kind).place.role block.now.result
        (source_types values.now sources.now) }
{
    match block.kind.row().role {
        Role::RootOutput { .. } | Role::InnerPort { .. } | Role::EnabledOutput => is_drivers(
            block.result,
            values,
            sources,
        ),
        Role::RootInput { .. } | Role::Control | Role::Plain => true,
    }
}

/// Whether the inputs of a Mux have one type.
fn agree_inside(kind: &Kind, values: &[Option<FxType>], sources: &[Source]) -> bool
    requires { CanRead values.now sources.now }
    ensures { (result ≡ true) ↔ AgreeInside (row_of kind.now).signal.shape
        (source_types values.now sources.now) }
{
    match kind.shape() {
        Shape::Joined { .. } => are_one(values, sources),
        Shape::Elementwise | Shape::Parted { .. } | Shape::Single => true,
    }
}

/// Whether the types of the inputs of a block agree.
pub fn agrees(block: &Block, values: &[Option<FxType>], sources: &[Source]) -> bool
    requires { CanRead values.now sources.now }
    ensures { let types = source_types values.now sources.now in
        (result ≡ true) ↔ (AgreesWith (row_of block.now.kind).place.role block.now.result types ×
        AgreeInside (row_of block.now.kind).signal.shape types) }
{
    if agrees_with(block, values, sources) {
        agree_inside(&block.kind, values, sources)
    } else {
        false
    }
}
