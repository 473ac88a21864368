ghost use Rattle.std.specs.Prelude.{◌≡◌, ◌≤◌, ◌++◌, ℕ, List, codes, length, cond, IfOk, IfSome, MatchOption, Some, None};
ghost use Rattle.mdl_text.specs.declared.strings.Place.TheVariants.{Inside};
ghost use Rattle.mdl_text.specs.inner.Plain.{string_step, strings, strings_from};

use crate::scan::{are_blanks, is_blank};
use fx_io::OutOfMemory;
use fx_text::{plain_length, push_escaped};

/// Room for so many bytes is made at once.
const USUAL_LENGTH: usize = 64;

/// Where a byte stands, beside quotes: outside of a string, in one, or after a backslash in one.
#[derive(Clone, Copy)]
pub enum Place {
    Outside,
    Inside,
    Escaped,
}

/// Reads one byte of quoted strings, and puts what it says at the end. `None` where no string goes
/// on so.
#[tactic(auto, unfolding(crate::specs::inner::Plain::string_step))]
fn string_step(place: Place, said: &mut Vec<u8>, byte: u8) -> Result<Option<Place>, OutOfMemory>
    ensures { IfOk result (λ next. MatchOption next
        (string_step place said.old.items byte ≡ None)
        (λ place_after.
        string_step place said.old.items byte ≡ Some (place_after, said.new.items))) }
{
    match place {
        Place::Outside => Ok(match byte {
            b'"' => Some(Place::Inside),
            _ if is_blank(byte) => Some(Place::Outside),
            _ => None,
        }),
        Place::Inside => Ok(match byte {
            b'"' => Some(Place::Outside),
            b'\\' => Some(Place::Escaped),
            _ => {
                said.push(byte)?;
                Some(Place::Inside)
            }
        }),
        Place::Escaped => {
            push_escaped(said, byte)?;
            Ok(Some(Place::Inside))
        }
    }
}

/// The text of a string without backslashes that has blanks alone after it, behind its first quote.
/// `None` where the bytes have another form.
#[tactic(auto, using(crate::proofs::PlainRuns::one_string))]
pub fn plain_string(inner: &[u8]) -> Option<&[u8]>
    ensures { IfSome result (λ text. (said : List ℕ) →
        strings_from said (codes "\"" ++ inner.now) ≡ Some (said ++ text.now)) }
{
    let (text, behind) = inner.split_at(plain_length(inner));
    let Some((last, after)) = behind.split_first() else {
        return None;
    };
    if *last == b'"' && are_blanks(after) {
        Some(text)
    } else {
        None
    }
}

/// Puts the bytes that stand for themselves in a string at the end of `said`, and gives the bytes
/// after them.
#[tactic(auto, using(crate::proofs::PlainRuns::inside_plain))]
fn take_plain<'a>(said: &mut Vec<u8>, bytes: &'a [u8]) -> Result<&'a [u8], OutOfMemory>
    ensures value { IfOk result (λ rest.
        strings Inside said.old.items bytes.now ≡ strings Inside said.new.items rest.now) }
    ensures within { IfOk result (λ rest. length rest.now ≤ length bytes.now) }
{
    let (run, rest) = bytes.split_at(plain_length(bytes));
    said.extend_from_slice(run)?;
    Ok(rest)
}

/// Reads quoted strings with blanks between and after, and puts what they say at the end of `said`.
/// `false` where the bytes are none.
pub fn strings(said: &mut Vec<u8>, bytes: &[u8]) -> Result<bool, OutOfMemory>
    ensures { IfOk result (λ good. strings_from said.old.items bytes.now
        ≡ cond good (Some said.new.items) None) }
{
    said.reserve(bytes.len().min(USUAL_LENGTH))?;
    let mut place = Place::Outside;
    let mut rest = bytes;
    while let [byte, after @ ..] = rest {
        match string_step(place, said, *byte)? {
            None => return Ok(false),
            Some(next) => place = next,
        }
        rest = match place {
            Place::Inside => take_plain(said, after)?,
            Place::Outside | Place::Escaped => after,
        };
    }
    Ok(matches!(place, Place::Outside))
}
