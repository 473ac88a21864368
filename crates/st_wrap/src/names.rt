//! The names of the wrapper's own wires and registers, and of those of the core in it.
ghost use Rattle.std.specs.Prelude.{◌≡◌, IfOk};
ghost use Rattle.st_wrap.specs.inner.Names.{inner_name, held_name, late_name, is_shared};

use fx_io::{OutOfMemory, Text};
use itoa::Buffer;
use std::alloc::Global;

/// Whether the core and the wrapper have the name in common.
pub fn is_shared(name: &[u8]) -> bool
    ensures { result ≡ is_shared name.now }
{
    (name == b"clk".as_slice()) | (name == b"reset".as_slice())
}

/// What a name of the core is called in the wrapper.
pub fn inner_name(alloc: Global, name: &[u8]) -> Result<Text, OutOfMemory>
    ensures { IfOk result (λ text. text ≡ inner_name name.now) }
{
    if is_shared(name) {
        return Text::copy(alloc, name);
    }
    Text::copy(alloc, b"fx_core_")?.append(alloc, name)
}

/// The register that holds an input.
pub fn held_name(alloc: Global, name: &[u8]) -> Result<Text, OutOfMemory>
    ensures { IfOk result (λ text. text ≡ held_name name.now) }
{
    Text::copy(alloc, b"fx_held_")?.append(alloc, name)
}

/// The register that has an output of so many samples ago.
pub fn late_name(alloc: Global, name: &[u8], samples: u64) -> Result<Text, OutOfMemory>
    ensures { IfOk result (λ text. text ≡ late_name name.now samples) }
{
    let mut digits = Buffer::new();
    let text = Text::copy(alloc, b"fx_late_")?;
    let text = text.append(alloc, digits.format(samples).as_bytes())?;
    text.append(alloc, b"_")?.append(alloc, name)
}
