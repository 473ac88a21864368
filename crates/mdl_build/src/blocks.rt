//! The blocks of a tree, each with what its parameters say.
ghost use Rattle.std.specs.Prelude.{◌≡◌, ◌<◌, length, unwrap_or, IfOk, MatchOption};
ghost use Rattle.mdl_values.specs.Reads.{Finds};
ghost use Rattle.mdl_build.specs.Blocks.{first_text, HasSettings};
ghost use Rattle.mdl_build.specs.Library.{row_of, parameters_of};
ghost use Rattle.mdl_build.specs.Lookup.{value_under};
ghost use Rattle.mdl_build.specs.Rules.{IsFirstWrong};
ghost use Rattle.mdl_build.specs.Settings.{unset};
ghost use Rattle.mdl_build.specs.inner.Readings.{IsReadAs};
ghost use Rattle.mdl_build.specs.inner.Texts.{contents_of, fallbacks_of};

use crate::layout::Layout;
use crate::library::{BlockType, Parameter, parameters};
use crate::lookup::value_under;
use crate::reading::read_setting;
use crate::settings::{Setting, Settings};
use fx_io::OutOfMemory;
use std::alloc::Global;

/// The value of the first parameter that the block at a place has, else the other.
pub fn text_of<'a>(layout: &Layout<'a>, place: usize, name: &str, other: &'a [u8]) -> &'a [u8]
    requires { place < length layout.now.items.now }
    ensures { result.now ≡ unwrap_or (value_under layout.now.items.now place name.now) other.now }
{
    match value_under(layout, place, name) {
        Some(text) => text,
        None => other,
    }
}

/// The text of the first parameter of the block at a place. Where it has none, this is empty.
fn first_text<'a>(
    layout: &Layout<'a>,
    defaults: &[&'a [u8]],
    block_type: BlockType,
    place: usize,
) -> &'a [u8]
    requires within { place < length layout.now.items.now }
    requires texts { contents_of defaults.now ≡ fallbacks_of layout.now.items.now block_type }
    ensures { result.now
        ≡ first_text layout.now.items.now block_type place (parameters_of block_type) }
{
    match parameters(block_type).first() {
        None => b"",
        Some(parameter) => text_of(layout, place, parameter.name(), defaults[0]),
    }
}

/// Reads a parameter of the block at a place, which has the other value where the block has none.
fn read_parameter<'a>(
    alloc: Global,
    layout: &Layout<'a>,
    place: usize,
    first: &[u8],
    parameter: Parameter,
    other: &'a [u8],
) -> Result<Option<Setting>, OutOfMemory>
    requires { place < length layout.now.items.now }
    ensures { IfOk result (λ found. Finds (IsReadAs first.now parameter
        (unwrap_or (value_under layout.now.items.now place (row_of parameter).name) other.now))
        found) }
{
    let text = text_of(layout, place, parameter.name(), other);
    read_setting(alloc, parameter, first, text)
}

/// Reads the parameters of the block at a place in the order of the table, and puts what they say.
/// Tells the first one that isn't read, by its name.
pub fn read_block<'a>(
    alloc: Global,
    layout: &Layout<'a>,
    defaults: &[&'a [u8]],
    block_type: BlockType,
    place: usize,
    settings: &mut Settings,
) -> Result<Option<&'static str>, OutOfMemory>
    requires within { place < length layout.now.items.now }
    requires texts { contents_of defaults.now ≡ fallbacks_of layout.now.items.now block_type }
    requires unset { settings.old ≡ unset }
    ensures { IfOk result (λ wrong. MatchOption wrong
        (HasSettings layout.now.items.now block_type place settings.new)
        (λ name. IsFirstWrong layout.now.items.now block_type place (parameters_of block_type)
        name.now)) }
{
    let first = first_text(layout, defaults, block_type, place);
    for (number, parameter) in parameters(block_type).iter().enumerate() {
        match read_parameter(alloc, layout, place, first, *parameter, defaults[number])? {
            None => return Ok(Some(parameter.name())),
            Some(setting) => settings.put(setting),
        }
    }
    Ok(None)
}
