ghost use Rattle.std.specs.Prelude.{◌≡◌, ◌<◌, ◌≤◌, ◌&&◌, IfOk, ⊤, All, length, map, Some, None};
ghost use Rattle.std.specs.List.{list_all};
ghost use Rattle.dg_waves.specs.Rounds.{after_rounds as after_rounds_of};
ghost use Rattle.dg_model.specs.Library.{row_of};
ghost use Rattle.dg_model.specs.Limits.{most_blocks};
ghost use Rattle.dg_model.specs.Periods.{are_unchanging, is_unchanging, least_finite as least_finite_of, least_of, next_periods, or_one};
ghost use Rattle.dg_rates.specs.inner.Links.{AreSources};
ghost use Rattle.fx_io.specs.Rows.{row_at};
ghost use Rattle.dg_rates.specs.inner.Steps.{all_rests, is_of_sources, known_of, next_known, taken_by};
ghost use Rattle.dg_rates.specs.inner.StepLaws.{step_is_local};

use crate::links::Links;
use dg_model::{Block, Diagram, Inherited, Kind};
use dg_waves::Round;
use fx_io::{OutOfMemory, Periods};
use std::alloc::Global;

/// A block's period, where it has one yet; an inner `None` is a value that never changes.
pub type Known = Option<Option<u32>>;

/// The blocks of a diagram, as the rounds of periods see them.
#[derive(Drop)]
pub struct PeriodRound<'a> {
    pub blocks: &'a [Block],
    pub links: Links,
    pub ghost long: { length blocks.now ≡ length links.sources },
}

/// Whether a block of this kind may take the period of a value that never changes.
fn may_rest(kind: &Kind) -> bool
    ensures { result ≡ is_of_sources (row_of kind.now).timing.inherits }
{
    match kind.row().inherits {
        Inherited::OfSources => true,
        Inherited::Moving | Inherited::Base | Inherited::Unchanging => false,
    }
}

/// The lesser of a period and another, where there is another.
fn lesser(other: Option<u32>, period: u32) -> u32
    ensures { Some result ≡ least_of other (Some period) }
{
    match other {
        Some(other) => other.min(period),
        None => period,
    }
}

/// The least finite period of the sources.
fn least_finite(values: &[Known], sources: &[u32]) -> Option<u32>
    requires { All (λ source. source < length values.now) sources.now }
    ensures { result ≡ least_finite_of (known_of values.now sources.now) }
{
    let mut least: Option<u32> = None;
    for source in sources {
        let value = values[*source as usize];
        if let Some(Some(period)) = value {
            least = Some(lesser(least, period));
        }
    }
    least
}

/// Whether no source's value ever changes.
fn all_rest(values: &[Known], sources: &[u32]) -> bool
    requires { All (λ source. source < length values.now) sources.now }
    ensures { result ≡ list_all is_unchanging (known_of values.now sources.now) }
{
    for source in sources {
        let value = values[*source as usize];
        match value {
            Some(None) => {}
            Some(Some(_)) | None => return false,
        }
    }
    true
}

/// Whether a block takes the period of a value that never changes, where no source has a finite
/// one.
fn takes_rest(values: &[Known], sources: &[u32], rests: bool) -> bool
    requires { All (λ source. source < length values.now) sources.now }
    ensures { result ≡ (rests && are_unchanging (known_of values.now sources.now)) }
{
    if sources.is_empty() || !rests {
        false
    } else {
        all_rest(values, sources)
    }
}

/// The period that a block without one takes from its sources.
fn taken(values: &[Known], sources: &[u32], rests: bool) -> Known
    requires { All (λ source. source < length values.now) sources.now }
    ensures { result ≡ taken_by rests (known_of values.now sources.now) }
{
    match least_finite(values, sources) {
        Some(period) => Some(Some(period)),
        None => {
            if takes_rest(values, sources, rests) {
                Some(None)
            } else {
                None
            }
        }
    }
}

impl Round for PeriodRound<'_> {
    type Value = Known;

    ghost count = { λ round. length round.links.sources };

    ghost IsValue = { λ round value. ⊤ };

    ghost next = { λ round values block.
        next_known (all_rests round.blocks.now) round.links.sources values block };

    ghost readers_of = { λ round block. row_at round.links.readers block };

    ghost readers_there = { λ round block there. round.links.tied.readers_there block };

    ghost fit = { λ round values block size there fit. tt };

    ghost local = { λ round old new block old_size new_size there same.
        step_is_local (all_rests round.blocks.now) round.links.sources round.links.readers
        old new block round.links.tied there same };

    fn next(&self, values: &[Known], block: u32) -> Known {
        match values[block as usize] {
            Some(period) => Some(period),
            None => taken(
                values,
                self.links.sources_of(block),
                may_rest(&self.blocks[block as usize].kind),
            ),
        }
    }

    fn readers(&self, block: u32) -> &[u32] {
        self.links.readers.as_slice()[block as usize].as_slice()
    }

    fn is_same(&self, left: Known, right: Known) -> bool {
        left == right
    }
}

impl PeriodRound<'_> {
    /// The periods of a diagram's blocks: those after as many rounds as there are blocks, and 1
    /// where there is none by then (Simulink reference, sample time propagation; the rounds are own).
    pub fn periods(
        &self,
        alloc: Global,
        diagram: &Diagram,
        first: Vec<Known>,
    ) -> Result<Periods, OutOfMemory>
        requires few { length diagram.now.blocks ≤ most_blocks }
        requires size { length self.now.links.sources ≡ length diagram.now.blocks }
        requires first_size { length first.items ≡ length diagram.now.blocks }
        requires blocks { self.now.blocks.now ≡ diagram.now.blocks }
        requires sources { AreSources diagram.now self.now.links.sources }
        ensures { IfOk result (λ periods. periods ≡ map or_one
            (after_rounds_of (next_periods diagram.now) (length diagram.now.blocks) first.items)) }
    {
        let rounds = diagram.blocks.as_slice().len() as u32;
        let known = dg_waves::after_rounds(alloc, self, first, rounds)?;
        let mut periods = Periods::new(alloc);
        for period in known.as_slice() {
            periods.push(or_base(*period))?;
        }
        Ok(periods)
    }
}

/// A period that is known, else one base sample.
fn or_base(known: Known) -> Option<u32>
    ensures { result ≡ or_one known }
{
    match known {
        Some(period) => period,
        None => Some(1),
    }
}
