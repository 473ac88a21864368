ghost use Rattle.std.specs.Prelude.{◌≡◌, true, ◌<◌, ◌≤◌, [], min, max, sum, All, length, slice_index_or};
ghost use Rattle.dg_types.specs.inner.Widths.{width_through as width_through_of, is_shared_out, source_widths, taken_by as taken_by_form, next_held, AreLinked, CanTake};
ghost use Rattle.dg_types.specs.inner.WidthLaws.{is_local, stays};
ghost use Rattle.dg_types.specs.inner.Build.{all_forms};
ghost use Rattle.dg_types.specs.inner.WidthShapes.{shape_of, form_of as form_of_shape};
ghost use Rattle.dg_model.specs.Limits.{longest_list};
ghost use Rattle.dg_model.specs.Widths.{share as share_of, list_length as list_length_of, most_width};
ghost use Rattle.math_list.specs.Numbers.{greatest};

use crate::kinds::list_length;
use dg_model::{Block, Kind, Shape};
use dg_waves::Round;
use fx_io::{Sequence, Sizes};

/// The most that a width counts up to.
const MOST: u32 = 1025;

/// How an output port shows what its block has taken.
#[derive(Clone, Copy)]
pub enum Share {
    /// The block's width.
    Whole,
    /// One of so many parts, from 0, as even as can be.
    Even { parts: u32, place: u32 },
    /// A part of this size.
    Fixed { size: u32 },
}

/// What an input reads: a block, and what of it.
#[derive(Clone, Copy)]
pub struct Source {
    pub block: u32,
    pub share: Share,
}

/// How a block takes its width.
#[derive(Clone, Copy)]
pub enum Form {
    /// The greatest of its own, its inputs' and the lengths of its lists.
    Elementwise { least: u32 },
    /// The sum of its inputs'.
    Joined,
    /// That of its input, to be divided among its outputs.
    Divided,
    /// One element.
    Single,
}

/// The blocks of a diagram, as the rounds of widths see them.
#[derive(Drop)]
pub struct WidthRound<'a> {
    pub blocks: &'a [Block],
    pub sources: Sequence<Sequence<Source>>,
    pub readers: Sequence<Sizes>,
    pub ghost short: { All (λ block. list_length_of block.kind ≤ longest_list) blocks.now },
    pub ghost linked: { AreLinked (all_forms blocks.now) sources readers },
}

/// How a block of this kind takes its width.
fn form_of(kind: &Kind) -> Form
    requires { list_length_of kind.now ≤ longest_list }
    ensures { result ≡ form_of_shape (shape_of kind.now) (list_length_of kind.now) }
{
    match kind.shape() {
        Shape::Elementwise => Form::Elementwise {
            least: list_length(kind) as u32,
        },
        Shape::Joined { .. } => Form::Joined,
        Shape::Parted { .. } => Form::Divided,
        Shape::Single => Form::Single,
    }
}

/// One of so many parts of a width, as even as can be.
pub fn part(width: u32, parts: u32, place: u32) -> u32
    requires some { 0 < parts }
    requires small { width ≤ most_width }
    ensures { result ≡ share_of width parts place }
{
    let whole = width / parts;
    if place < width % parts {
        whole + 1
    } else {
        whole.max(1)
    }
}

/// The width at an output port of a block that has taken this.
fn width_through(share: Share, held: u32) -> u32
    requires small { held ≤ 1026 }
    requires some { is_shared_out share ≡ true }
    ensures { result ≡ width_through_of share held }
{
    match share {
        Share::Whole => held,
        Share::Even { parts, place } => {
            if held == 0 {
                1
            } else {
                part(held - 1, parts, place)
            }
        }
        Share::Fixed { size } => { if held == 0 { 1 } else { size } }
    }
}

/// The greatest of what the sources show and a least.
fn greatest_width(values: &[u32], sources: &[Source], least: u32) -> u32
    requires { CanTake values.now sources.now }
    ensures { result ≡ max least (greatest (source_widths values.now sources.now)) }
{
    let mut most = least;
    for source in sources {
        most = most.max(width_through(source.share, values[source.block as usize]));
    }
    most
}

/// What the sources show together, cut.
fn sum_of_widths(values: &[u32], sources: &[Source]) -> u32
    requires { CanTake values.now sources.now }
    ensures { result ≡ min most_width (sum (source_widths values.now sources.now)) }
{
    let mut together = 0;
    for source in sources {
        let width = width_through(source.share, values[source.block as usize]);
        together = (together + width.min(MOST)).min(MOST);
    }
    together
}

impl WidthRound<'_> {
    /// What the inputs of a block read.
    pub fn sources_of(&self, block: u32) -> &[Source]
        requires inside { block < length self.now.sources }
        ensures value { result.now ≡ slice_index_or self.now.sources block [] }
        ensures there { All (λ source. source.block < length self.now.sources) result.now }
        ensures shared_out { All (λ source. is_shared_out source.share ≡ true) result.now }
    {
        self.sources.as_slice()[block as usize].as_slice()
    }
}

impl Round for WidthRound<'_> {
    type Value = u32;

    ghost count = { λ round. length round.sources };

    ghost IsValue = { λ round value. value ≤ 1026 };

    ghost next = { λ round values block.
        next_held (all_forms round.blocks.now) round.sources values block };

    ghost readers_of = { λ round block. slice_index_or round.readers block [] };

    ghost readers_there = { λ round block there. round.linked.readers_there block };

    ghost fit = { λ round values block size there fit.
        stays (all_forms round.blocks.now) round.sources values block };

    ghost local = { λ round old new block old_size new_size there same.
        is_local (all_forms round.blocks.now) round.sources round.readers old new block
        round.linked there same };

    fn next(&self, values: &[u32], block: u32) -> u32 {
        taken_by(
            form_of(&self.blocks[block as usize].kind),
            values[block as usize],
            values,
            self.sources_of(block),
        )
    }

    fn readers(&self, block: u32) -> &[u32] {
        self.readers.as_slice()[block as usize].as_slice()
    }

    fn is_same(&self, left: u32, right: u32) -> bool {
        left == right
    }
}

/// What the first source shows, 0 where there is none.
fn first_width(values: &[u32], sources: &[Source]) -> u32
    requires { CanTake values.now sources.now }
    ensures { result ≡ slice_index_or (source_widths values.now sources.now) 0 0 }
{
    match sources.first() {
        Some(source) => width_through(source.share, values[source.block as usize]),
        None => 0,
    }
}

/// What a block of this form that holds so much takes from its sources.
fn taken_by(form: Form, own: u32, values: &[u32], sources: &[Source]) -> u32
    requires { CanTake values.now sources.now }
    ensures { result ≡ taken_by_form form own (source_widths values.now sources.now) }
{
    match form {
        Form::Elementwise { least } => greatest_width(values, sources, own.max(least)).min(MOST),
        Form::Joined => sum_of_widths(values, sources),
        Form::Divided => first_width(values, sources).min(MOST) + 1,
        Form::Single => 1,
    }
}
