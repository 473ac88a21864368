//! Chains of registers.
ghost use Rattle.std.specs.Prelude.{◌≡◌, ◌<◌, All, true};
ghost use Rattle.hw_lines.specs.Chain.{IsSource, IsUse};

use crate::nets::frame_of;
use anyhow::{Error, Result};
use fx_io::Sizes;
use fx_num::{fits, is_word};
use hw_lines::{Source, Use, chain, line};
use hw_net::{Frame, Netlist};
use std::alloc::Global;
use tests_rows::Row;

/// Whether a source may be chained.
fn is_source(net: &Netlist, source: Source) -> bool
    ensures { result ≡ true → IsSource net.now source }
{
    let Some(one) = net.nets().get(source.from as usize) else {
        return false;
    };
    if !is_word(one.width, one.signed) || !fits(source.first, one.width, one.signed) {
        return false;
    }
    let Frame { period, latency } = source.frame;
    0 < period && period <= 4096 && latency < 1 << 62
}

/// Whether a source may have a use.
fn is_use(source: Source, one: Use) -> bool
    requires { 0 < source.frame.period }
    ensures { result ≡ true → IsUse source one }
{
    if one.period == 0 || 4096 < one.period || one.shift >= 1 << 62 {
        return false;
    }
    if source.registered {
        source.frame.period % one.period == 0 && 1 <= one.shift
    } else {
        one.period % source.frame.period == 0
    }
}

/// Whether a source may have all of these uses.
fn are_uses(source: Source, uses: &[Use]) -> bool
    requires { 0 < source.frame.period }
    ensures { result ≡ true → All (IsUse source) uses.now }
{
    uses.iter().all(|one| is_use(source, *one))
}

fn source_of(row: &mut Row<'_>) -> Result<Source> {
    Ok(Source {
        from: row.number()?,
        frame: frame_of(row)?,
        first: row.integer()?,
        registered: row.one_of(&[("plain", false), ("registered", true)])?,
    })
}

/// The uses of a text.
fn uses_of(alloc: Global, text: &[u8]) -> Result<Vec<Use>> {
    let mut table = Row::of(alloc, str::from_utf8(text)?)?;
    let mut uses = Vec::new(alloc);
    for _ in 0..table.words_left() / 3 {
        put_uses(&mut table, &mut uses)?;
    }
    Ok(uses)
}

/// Reads a use, and puts so many of it behind others, each shifted by one more.
fn put_uses(table: &mut Row<'_>, uses: &mut Vec<Use>) -> Result<()> {
    let shift = table.long()?;
    let period = table.number()?;
    for more in 0..table.number()? {
        let shift = shift.wrapping_add(u64::from(more));
        uses.push(Use { shift, period })?;
    }
    Ok(())
}

/// Puts in a chain, and gives its answers.
pub fn put_chain(alloc: Global, net: &mut Netlist, row: &mut Row<'_>) -> Result<Sizes> {
    let source = source_of(row)?;
    let uses = uses_of(alloc, row.text.as_slice())?;
    chain_of(alloc, net, source, uses.as_slice())
}

fn chain_of(alloc: Global, net: &mut Netlist, source: Source, uses: &[Use]) -> Result<Sizes> {
    if net.cycles() == 0 || net.cycles() > 1024 {
        return Err(Error::msg("no number of clocks"));
    }
    if !is_source(net, source) || !are_uses(source, uses) {
        return Err(Error::msg("no chain"));
    }
    let Source {
        from,
        frame,
        first,
        registered,
    } = source;
    Ok(chain(alloc, net, from, frame, first, registered, uses)?)
}

/// Puts in a chain of one use, and gives its answer.
pub fn put_line(alloc: Global, net: &mut Netlist, row: &mut Row<'_>) -> Result<Sizes> {
    let source = source_of(row)?;
    let shift = row.long()?;
    let period = row.number()?;
    let answer = line_of(alloc, net, source, Use { shift, period })?;
    let mut answers = Sizes::new(alloc);
    answers.push(answer)?;
    Ok(answers)
}

fn line_of(alloc: Global, net: &mut Netlist, source: Source, one: Use) -> Result<u32> {
    if net.cycles() == 0 || net.cycles() > 1024 {
        return Err(Error::msg("no number of clocks"));
    }
    if !is_source(net, source) || !is_use(source, one) {
        return Err(Error::msg("no line"));
    }
    let Use { shift, period } = one;
    Ok(line(
        alloc,
        net,
        source.from,
        source.frame,
        shift,
        period,
        source.first,
        source.registered,
    )?)
}
