//! The signs of a sum.
ghost use Rattle.std.specs.Prelude.{◌≡◌, false, [], Some, None, cond, replicate, IfOk};
ghost use Rattle.mdl_values.specs.Reads.{Finds};
ghost use Rattle.mdl_values.specs.Signs.{is_spacer, signs_of, AreSigns, IsSignsText};

use crate::numbers::read_number;
use crate::pieces::is_solid;
use fx_io::{Flags, OutOfMemory};
use std::alloc::Global;

/// Whether a byte is passed over between signs.
fn is_spacer(byte: u8) -> bool
    ensures { result ≡ is_spacer byte }
{
    byte == b'|' || !is_solid(byte)
}

/// Puts of each `+` and `-` whether it subtracts. Tells whether the text has no other signs.
fn put_signs(signs: &mut Flags, text: &[u8]) -> Result<bool, OutOfMemory>
    requires { signs.old ≡ [] }
    ensures { IfOk result (λ good. signs_of text.now ≡ cond good (Some signs.new) None) }
{
    for byte in text {
        if *byte == b'+' {
            signs.push(false)?;
        } else if *byte == b'-' {
            signs.push(true)?;
        } else if !is_spacer(*byte) {
            return Ok(false);
        }
    }
    Ok(true)
}

/// So many signs that add.
fn all_add(alloc: Global, count: u32) -> Result<Flags, OutOfMemory>
    ensures { IfOk result (λ signs. signs ≡ replicate count false) }
{
    Ok(Flags::from_vec(vec![in alloc; false; count as usize]?))
}

/// 2 to 32 signs.
fn few_signs(alloc: Global, text: &[u8]) -> Result<Option<Flags>, OutOfMemory>
    ensures { IfOk result (λ found. Finds (AreSigns text.now) found) }
{
    let mut signs = Flags::new(alloc);
    let good = put_signs(&mut signs, text)?;
    let count = signs.as_slice().len();
    if good && 2 <= count && count <= 32 {
        Ok(Some(signs))
    } else {
        Ok(None)
    }
}

/// Reads the signs of a sum, `true` where one subtracts: 2 to 32 of `+` and `-`, between which `|`
/// and blanks are passed over, or their number, which means so many `+`. Source: Simulink
/// reference, Sum, `Inputs`.
pub fn read_signs(alloc: Global, text: &[u8]) -> Result<Option<Flags>, OutOfMemory>
    ensures { IfOk result (λ found. Finds (IsSignsText text.now) found) }
{
    match read_number(text, 2, 32) {
        Some(count) => Ok(Some(all_add(alloc, count)?)),
        None => few_signs(alloc, text),
    }
}
