//! The readers that take no memory.
ghost use Rattle.std.specs.Prelude.{true, []};
ghost use Rattle.mdl_values.specs.Reads.{Finds};
ghost use Rattle.mdl_build.specs.declared.library.Reader.{Reader};
ghost use Rattle.mdl_build.specs.Settings.{IsChosen, IsTapType, IsTypeOr, IsTypeOrFirst, ReadsAs};

use crate::settings::Setting;
use fx_type::TypeSpec;
use mdl_values::{read_number, read_type};

/// The default alone.
pub fn default_alone(text: &[u8], default: &[u8]) -> Option<Setting>
    ensures { Finds (ReadsAs [] Reader.Default default.now text.now) result }
{
    if text == default {
        Some(Setting::Unsaid)
    } else {
        None
    }
}

/// A number of operands. A gate of one input, which has this word, doesn't look at it.
pub fn operands(gate: &[u8], text: &[u8]) -> Option<Setting>
    ensures { Finds (ReadsAs gate.now Reader.Operands [] text.now) result }
{
    if gate == b"NOT".as_slice() {
        return Some(Setting::Number(1));
    }
    read_number(text, 2, 32).map(Setting::Number)
}

/// A type alone.
pub fn type_alone(text: &[u8]) -> Option<Setting>
    ensures { Finds (ReadsAs [] Reader.Type [] text.now) result }
{
    match read_type(text) {
        None => None,
        Some(read) => Some(Setting::Result(TypeSpec::Fixed(read))),
    }
}

/// A word that says how a type is chosen, or a type.
pub fn type_or(text: &[u8], word: &[u8], choice: TypeSpec) -> Option<Setting>
    ensures { Finds (IsTypeOr word.now choice text.now) result }
{
    if text == word {
        Some(Setting::Result(choice))
    } else {
        type_alone(text)
    }
}

/// The word for the type of the first input, the internal rule, or a type.
pub fn type_or_first(text: &[u8], default: &[u8], first: &[u8]) -> Option<Setting>
    ensures { Finds (IsTypeOrFirst default.now first.now text.now) result }
{
    if text == first {
        Some(Setting::Result(TypeSpec::SameFirst))
    } else {
        type_or(text, default, TypeSpec::Internal)
    }
}

/// How the type of a coefficient or of an accumulator is chosen.
pub fn coefficient(text: &[u8], default: &[u8], same: &[u8]) -> Option<Setting>
    ensures { Finds (IsChosen default.now same.now text.now) result }
{
    if text == default {
        return Some(Setting::Coefficient(TypeSpec::Internal));
    }
    if text == same {
        return Some(Setting::Coefficient(TypeSpec::SameFirst));
    }
    match read_type(text) {
        None => None,
        Some(read) => Some(Setting::Coefficient(TypeSpec::Fixed(read))),
    }
}

/// How the type of the coefficients of a filter is chosen.
pub fn tap_type(text: &[u8], default: &[u8]) -> Option<Setting>
    ensures { Finds (IsTapType default.now text.now) result }
{
    if text == default {
        return Some(Setting::Coefficient(TypeSpec::Internal));
    }
    match read_type(text) {
        None => None,
        Some(read) => Some(Setting::Coefficient(TypeSpec::Fixed(read))),
    }
}

/// `boolean`, which is the default, or a text that begins so.
pub fn truth(text: &[u8], default: &[u8]) -> Option<Setting>
    ensures { Finds (ReadsAs [] Reader.Truth default.now text.now) result }
{
    if text == default {
        return Some(Setting::Unsaid);
    }
    if text.starts_with(b"Inherit: Logical") {
        return Some(Setting::Unsaid);
    }
    None
}

/// A number of factors, which is 2.
pub fn factors(text: &[u8]) -> Option<Setting>
    ensures { Finds (ReadsAs [] Reader.Factors [] text.now) result }
{
    if text == b"2".as_slice() || text == b"**".as_slice() {
        Some(Setting::Unsaid)
    } else {
        None
    }
}

/// The default, or `Stored Integer (SI)`.
pub fn conversion(text: &[u8], default: &[u8]) -> Option<Setting>
    ensures { Finds (ReadsAs [] Reader.Conversion default.now text.now) result }
{
    if text == default {
        return Some(Setting::Flag(false));
    }
    if text == b"Stored Integer (SI)".as_slice() {
        return Some(Setting::Flag(true));
    }
    None
}
