ghost use Rattle.std.specs.Prelude.{◌≡◌, [], drop, IfErr, IfOk, IsErr, IsOk};
ghost use Rattle.std.specs.IoError.{error_kind};
ghost use Rattle.std.specs.Vec.Iter.{into_iter_items};

use fx_io::OutOfMemory;
use std::alloc::Global;
use std::env::Args;
use std::io::{self, ErrorKind};

/// The program's words after its name (own), of its arguments. Words that aren't all text are none,
/// which have no listed shape.
pub fn words(alloc: Global, args: io::Result<Args>) -> Result<Vec<String>, OutOfMemory>
    ensures found { IfOk args (λ args. IfOk result (λ words.
        words.items ≡ drop 1 (into_iter_items args))) }
    ensures wanting { IfErr args (λ fault. error_kind fault ≡ ErrorKind.OutOfMemory
        → IsErr result) }
    ensures odd { IfErr args (λ fault. (error_kind fault ≡ ErrorKind.OutOfMemory → ⊥)
        → IsOk result × IfOk result (λ words. words.items ≡ [])) }
{
    match args {
        Ok(args) => behind_name(alloc, args),
        Err(fault) if fault.kind() == ErrorKind::OutOfMemory => Err(OutOfMemory),
        Err(_) => Ok(Vec::new(alloc)),
    }
}

/// The words behind the first, which is the program's name.
fn behind_name(alloc: Global, mut left: Args) -> Result<Vec<String>, OutOfMemory>
    ensures { IfOk result (λ words. words.items ≡ drop 1 (into_iter_items left)) }
{
    let mut words = Vec::new(alloc);
    let _ = left.next();
    while let Some(word) = left.next() {
        words.push(word)?;
    }
    Ok(words)
}
