//! What the names of a module are called where it stands in another.
ghost use Rattle.std.specs.Prelude.{◌≡◌, IfOk};
ghost use Rattle.vl_inner.specs.Names.{inner_name, is_shared, name_by};

use fx_io::{OutOfMemory, Text};
use std::alloc::Global;

/// What the names of a module are called where its items are put.
#[derive(Clone, Copy)]
pub enum Naming<'a> {
    /// As they are.
    Kept,
    /// As in another module, in which the module stands by this name.
    Behind(&'a [u8]),
}

/// Whether the module and the other have the name in common.
pub fn is_shared(name: &[u8]) -> bool
    ensures { result ≡ is_shared name.now }
{
    (name == b"clk".as_slice()) | (name == b"reset".as_slice())
}

/// What a name of the module is called behind the name by which it stands in the other. The only error
/// is want of memory.
pub fn inner_name(alloc: Global, head: &[u8], name: &[u8]) -> Result<Text, OutOfMemory>
    ensures { IfOk result (λ text. text ≡ inner_name head.now name.now) }
{
    if is_shared(name) {
        return Text::copy(alloc, name);
    }
    Text::copy(alloc, head)?
        .append(alloc, b"_")?
        .append(alloc, name)
}

/// What a name is called so. The only error is want of memory.
pub fn name_by(alloc: Global, naming: Naming<'_>, name: &[u8]) -> Result<Text, OutOfMemory>
    ensures { IfOk result (λ text. text ≡ name_by naming.entry name.now) }
{
    match naming {
        Naming::Kept => Text::copy(alloc, name),
        Naming::Behind(head) => inner_name(alloc, head, name),
    }
}
