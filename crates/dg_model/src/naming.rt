//! Names in paths.
ghost use Rattle.std.specs.Prelude.{◌≡◌, ◌++◌, OnOk};
ghost use Rattle.dg_model.specs.Naming.{escaped};

use fx_io::OutOfMemory;

/// Puts a name of a path at the end: a `/` inside it stands twice (own).
///
/// # Errors
/// Want of memory.
pub fn put_escaped(path: &mut Vec<u8>, name: &[u8]) -> Result<(), OutOfMemory>
    ensures { OnOk result (path.new.items ≡ path.old.items ++ escaped name.now) }
{
    for byte in name {
        path.push(*byte)?;
        if *byte == b'/' {
            path.push(b'/')?;
        }
    }
    Ok(())
}
