//! The rounds of types: in each round every block whose type isn't known takes what it can from the
//! types of the round before.
ghost use Rattle.std.specs.Prelude.{◌≡◌, [], length, slice_index_or, IfOk};
ghost use Rattle.dg_model.specs.TypeRounds.{explicit_type as explicit_type_of};
ghost use Rattle.dg_model.specs.Wired.{IsWired};
ghost use Rattle.dg_types.specs.inner.Build.{all_forms};
ghost use Rattle.dg_types.specs.inner.WidthShapes.{Mirrors};
ghost use Rattle.dg_types.specs.inner.TypeInputs.{IsKnownValid, AreReady, FullTypesAreValid, next_typed};
ghost use Rattle.dg_types.specs.inner.TypeScan.{IsTyped};
ghost use Rattle.dg_types.specs.inner.TypeLaws.{first_types, typed_is_local, typed_stays};

use crate::build::width_round;
use crate::linked::WidthRound;
use crate::typed_step::taken_type;
use dg_model::{Block, Diagram};
use dg_waves::Round;
use fx_io::OutOfMemory;
use fx_type::{FxType, TypeSpec};
use std::alloc::{AllocError, Global};

/// The blocks of a diagram, as the rounds of types see them.
#[derive(Drop)]
pub struct TypeRound<'a> {
    pub blocks: &'a [Block],
    pub links: WidthRound<'a>,
    pub ghost ready: { AreReady blocks.now links.sources },
    pub ghost valid: { FullTypesAreValid },
}

impl Round for TypeRound<'_> {
    type Value = Option<FxType>;

    ghost count = { λ round. length round.links.sources };

    ghost IsValue = { λ round value. IsKnownValid value };

    ghost next = { λ round values block.
        next_typed round.blocks.now round.links.sources values block };

    ghost readers_of = { λ round block. slice_index_or round.links.readers block [] };

    ghost readers_there = { λ round block there. round.links.linked.readers_there block };

    ghost fit = { λ round values block size there fit.
        typed_stays round.blocks.now round.links.sources values block round.ready round.valid fit };

    ghost local = { λ round old new block old_size new_size there same.
        typed_is_local round.blocks.now (all_forms round.links.blocks.now) round.links.sources
        round.links.readers old new block round.links.linked there same };

    fn next(&self, values: &[Option<FxType>], block: u32) -> Option<FxType> {
        match values[block as usize] {
            Some(kind) => Some(kind),
            None => taken_type(
                &self.blocks[block as usize],
                values,
                self.links.sources_of(block),
            ),
        }
    }

    fn readers(&self, block: u32) -> &[u32] {
        self.links.readers(block)
    }

    fn is_same(&self, left: Option<FxType>, right: Option<FxType>) -> bool {
        left == right
    }
}

/// The type that a specification writes out.
fn explicit_type(spec: TypeSpec) -> Option<FxType>
    ensures { result ≡ explicit_type_of spec }
{
    match spec {
        TypeSpec::Fixed(kind) => Some(kind),
        TypeSpec::Internal | TypeSpec::SameFirst | TypeSpec::Auto => None,
    }
}

/// The types that are written out, which are known before the first round.
fn all_explicit(alloc: Global, blocks: &[Block]) -> Result<Vec<Option<FxType>>, AllocError>
    ensures { IfOk result (λ types. types.items ≡ first_types blocks.now) }
{
    let mut types: Vec<Option<FxType>> = Vec::new(alloc);
    for block in blocks {
        types.push(explicit_type(block.result))?;
    }
    Ok(types)
}

/// What the rounds of types look at in a diagram.
pub fn round_of(alloc: Global, diagram: &Diagram) -> Result<TypeRound<'_>, OutOfMemory>
    requires { IsWired diagram.now }
    ensures blocks { IfOk result (λ round. round.blocks.now ≡ diagram.now.blocks) }
    ensures mirrors { IfOk result (λ round.
        Mirrors diagram.now (all_forms round.links.blocks.now) round.links.sources) }
{
    fx_type::full_sum_is_one();
    fx_type::union_is_one();
    let links = width_round(alloc, diagram)?;
    Ok(TypeRound {
        blocks: diagram.blocks.as_slice(),
        links,
    })
}

/// The types after as many rounds as there are blocks.
pub fn known_types(
    alloc: Global,
    diagram: &Diagram,
    round: &TypeRound<'_>,
) -> Result<Vec<Option<FxType>>, OutOfMemory>
    requires wired { IsWired diagram.now }
    requires blocks { round.now.blocks.now ≡ diagram.now.blocks }
    requires mirrors { Mirrors diagram.now (all_forms round.now.links.blocks.now)
        round.now.links.sources }
    ensures { IfOk result (λ types. IsTyped diagram.now round.now.blocks.now
        (all_forms round.now.links.blocks.now) round.now.links.sources types.items) }
{
    let first = all_explicit(alloc, round.blocks)?;
    let rounds = round.blocks.len() as u32;
    let types = dg_waves::after_rounds(alloc, round, first, rounds)?;
    Ok(types)
}
