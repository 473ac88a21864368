//! The names of nets.
ghost use Rattle.std.specs.Prelude.{◌≡◌, ◌++◌, IfOk, OnOk};
ghost use Rattle.hw_build.specs.inner.NetNames.{place_name};

use fx_io::{OutOfMemory, Text};
use hw_names::put_number;
use std::alloc::Global;

/// Puts the numbers of a block and of its element behind a name, and that of a stage where it is of one.
fn put_place(
    name: &mut Vec<u8>,
    block: u32,
    element: u32,
    stage: Option<u32>,
) -> Result<(), OutOfMemory>
    ensures { OnOk result (name.new.items ≡ name.old.items ++ place_name block element stage) }
{
    put_number(name, block)?;
    name.push(b'_')?;
    put_number(name, element)?;
    match stage {
        None => Ok(()),
        Some(stage) => {
            name.push(b'_')?;
            put_number(name, stage)
        }
    }
}

/// The name of a net of an element of a block, which begins with these bytes: of a register of its
/// pipeline with the number of that, from 1.
pub fn label(
    alloc: Global,
    begin: &[u8],
    block: u32,
    element: u32,
    stage: Option<u32>,
) -> Result<Text, OutOfMemory>
    ensures { IfOk result (λ name. name ≡ begin.now ++ place_name block element stage) }
{
    let mut name = Vec::from_slice(alloc, begin)?;
    put_place(&mut name, block, element, stage)?;
    Text::from_vec(alloc, name)
}
