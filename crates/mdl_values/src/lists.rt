//! Lists of decimals and of sizes.
ghost use Rattle.std.specs.Prelude.{IfOk};
ghost use Rattle.std.specs.List.{AllZip};
ghost use Rattle.fx_round.specs.DecimalText.{IsDecimal};
ghost use Rattle.mdl_values.specs.Reads.{Finds};
ghost use Rattle.mdl_values.specs.Lists.{IsListText, IsSizeText, IsSizesText};

use crate::brackets::{bracket_elements, elements_within, list_elements};
use crate::numbers::read_number;
use dg_model::Decimals;
use fx_io::{OutOfMemory, Sizes, Texts};
use fx_round::read_decimal;
use fx_type::Decimal;
use std::alloc::Global;

/// The most elements of a list.
const LONGEST: usize = 1024;

/// Reads a decimal. Source: own.
pub fn decimal(text: &[u8]) -> Option<Decimal>
    ensures { Finds (IsDecimal text.now) result }
{
    read_decimal(text).ok()
}

/// The decimals that the elements are.
fn decimals(alloc: Global, elements: &Texts) -> Result<Option<Decimals>, OutOfMemory>
    ensures { IfOk result (λ found. Finds (λ list. AllZip IsDecimal elements.now list) found) }
{
    let texts = elements.as_slice();
    let mut list = Decimals::new(alloc);
    for element in texts {
        let Some(value) = decimal(element.bytes()) else {
            return Ok(None);
        };
        list.push(value)?;
    }
    Ok(Some(list))
}

/// The sizes that the elements are.
fn sizes(alloc: Global, elements: &Texts) -> Result<Option<Sizes>, OutOfMemory>
    ensures { IfOk result (λ found.
        Finds (λ list. AllZip IsSizeText elements.now list) found) }
{
    let texts = elements.as_slice();
    let mut list = Sizes::new(alloc);
    for element in texts {
        let Some(size) = read_number(element.bytes(), 1, 1024) else {
            return Ok(None);
        };
        list.push(size)?;
    }
    Ok(Some(list))
}

/// Reads 1 to 1024 decimals in brackets, or one alone. Blanks around are passed over. Source:
/// Simulink reference, block parameters.
pub fn read_list(alloc: Global, text: &[u8]) -> Result<Option<Decimals>, OutOfMemory>
    ensures { IfOk result (λ found. Finds (IsListText text.now) found) }
{
    let Some(elements) = elements_within(list_elements(alloc, text)?, 1, LONGEST) else {
        return Ok(None);
    };
    let list = decimals(alloc, &elements);
    drop(elements);
    list
}

/// Reads 1 to 1024 sizes from 1 to 1024 in brackets. Source: Simulink reference, Mux and Demux.
pub fn read_sizes(alloc: Global, text: &[u8]) -> Result<Option<Sizes>, OutOfMemory>
    ensures { IfOk result (λ found. Finds (IsSizesText text.now) found) }
{
    let Some(elements) = elements_within(bracket_elements(alloc, text)?, 1, LONGEST) else {
        return Ok(None);
    };
    let list = sizes(alloc, &elements);
    drop(elements);
    list
}
