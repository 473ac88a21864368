//! The readers that take memory.
ghost use Rattle.std.specs.Prelude.{◌≡◌, ◌≢◌, ◌⊎◌, ◌+◌, ◌<◌, ◌^◌, [], IfOk, MatchBool};
ghost use Rattle.mdl_values.specs.Reads.{Finds};
ghost use Rattle.mdl_build.specs.declared.library.Reader.{Reader};
ghost use Rattle.mdl_build.specs.Settings.{AreTaps, IsTapCount, ReadsAs};

use crate::settings::Setting;
use dg_model::Decimals;
use fx_io::{OutOfMemory, Sizes};
use fx_type::Decimal;
use mdl_values::{read_list, read_number, read_signs, read_sizes, values_are_one};
use std::alloc::Global;

/// Whether so many values are one for all delays of a filter, or one for each.
fn fits(states: usize, taps: u32) -> bool
    requires { states + 1 < 2 ^ 32 }
    ensures { MatchBool result ((states ≡ 1) ⊎ (states + 1 ≡ taps))
        ((states ≢ 1) × (states + 1 ≢ taps)) }
{
    states == 1 || states + 1 == taps as usize
}

/// A list.
pub fn list(alloc: Global, text: &[u8]) -> Result<Option<Setting>, OutOfMemory>
    ensures { IfOk result (λ found. Finds (ReadsAs [] Reader.List [] text.now) found) }
{
    Ok(read_list(alloc, text)?.map(Setting::List))
}

/// A list, or `[]`, which is 0.
pub fn list_or_empty(alloc: Global, text: &[u8]) -> Result<Option<Setting>, OutOfMemory>
    ensures { IfOk result (λ found. Finds (ReadsAs [] Reader.ListOrEmpty [] text.now) found) }
{
    if text != b"[]".as_slice() {
        return list(alloc, text);
    }
    let mut zero = Decimals::new(alloc);
    zero.push(Decimal {
        negative: false,
        digits: 0,
        exponent: 0,
    })?;
    Ok(Some(Setting::List(zero)))
}

/// The coefficients of a filter: 2 to 32 decimals.
pub fn taps(alloc: Global, text: &[u8]) -> Result<Option<Decimals>, OutOfMemory>
    ensures { IfOk result (λ found. Finds (AreTaps text.now) found) }
{
    values_are_one();
    let Some(taps) = read_list(alloc, text)? else {
        return Ok(None);
    };
    let count = taps.as_slice().len();
    if count < 2 || count > 32 {
        return Ok(None);
    }
    Ok(Some(taps))
}

/// How many coefficients a filter has, whose coefficients have this text.
pub fn tap_count(alloc: Global, text: &[u8]) -> Result<Option<u32>, OutOfMemory>
    ensures { IfOk result (λ found. Finds (IsTapCount text.now) found) }
{
    match taps(alloc, text)? {
        None => Ok(None),
        Some(taps) => Ok(Some(taps.as_slice().len() as u32)),
    }
}

/// What the delays of a filter of these coefficients begin with: one value for all, or one for each.
pub fn states(
    alloc: Global,
    coefficients: &[u8],
    text: &[u8],
) -> Result<Option<Setting>, OutOfMemory>
    ensures { IfOk result (λ found.
        Finds (ReadsAs coefficients.now Reader.States [] text.now) found) }
{
    let Some(taps) = tap_count(alloc, coefficients)? else {
        return Ok(None);
    };
    values_are_one();
    let Some(states) = read_list(alloc, text)? else {
        return Ok(None);
    };
    if !fits(states.as_slice().len(), taps) {
        return Ok(None);
    }
    Ok(Some(Setting::States(states)))
}

/// Signs, or their number.
pub fn signs(alloc: Global, text: &[u8]) -> Result<Option<Setting>, OutOfMemory>
    ensures { IfOk result (λ found. Finds (ReadsAs [] Reader.Signs [] text.now) found) }
{
    match read_signs(alloc, text)? {
        None => Ok(None),
        Some(signs) => {
            let count = signs.as_slice().len() as u32;
            Ok(Some(Setting::Signs(count, signs)))
        }
    }
}

/// A number of parts, or their sizes.
pub fn parts(alloc: Global, text: &[u8]) -> Result<Option<Setting>, OutOfMemory>
    ensures { IfOk result (λ found. Finds (ReadsAs [] Reader.Parts [] text.now) found) }
{
    if let Some(count) = read_number(text, 1, 1024) {
        return Ok(Some(Setting::Parts(count, Sizes::new(alloc))));
    }
    match read_sizes(alloc, text)? {
        None => Ok(None),
        Some(sizes) => {
            let count = sizes.as_slice().len() as u32;
            Ok(Some(Setting::Parts(count, sizes)))
        }
    }
}
