ghost use Rattle.std.specs.Prelude.{◌≡◌, ◌++◌, codes, IfOk, OnOk};
ghost use Rattle.std.specs.Arc.{arc_value};
ghost use Rattle.std.specs.Option.{option_copied};
ghost use Rattle.dg_model.specs.Joined.{joined};

use fx_io::{OutOfMemory, Text};
use std::alloc::Global;
use std::marker::Model;
use std::sync::Arc;

/// The path of a block (own): its name, in which a `/` stands twice, behind the path of the System
/// around it, which all blocks in there share. Contracts see the bytes of the whole.
#[derive(Drop)]
pub struct Path {
    around: Option<Arc<Path>>,
    name: Text,
}

impl Model for Path {
    ghost use Rattle.std.specs.Prelude.{List, ℕ, length};
    ghost use Rattle.std.proofs.Common.{arith, length-append};
    ghost use Rattle.dg_model.specs.inner.Paths.{whole_path};

    ghost Value = { List ℕ };

    ghost view = { λ path. whole_path path.around path.name };

    ghost size = { length };

    ghost size_decreases = { λ a h. Prim.grind (arith, length-append) };
}

/// The path of a System, which the paths of its blocks share (own). Contracts see its bytes.
#[derive(Drop)]
pub struct SystemPath {
    path: Arc<Path>,
}

impl Model for SystemPath {
    ghost use Rattle.std.specs.Prelude.{List, ℕ};
    ghost use Rattle.std.specs.Arc.{arc_value};

    ghost Value = { List ℕ };

    ghost view = { λ system. arc_value system.path };
}

impl Path {
    /// The path of a block of the root: its name.
    pub fn root(name: Text) -> Path
        ensures { result ≡ name }
    {
        Path { around: None, name }
    }

    /// The path of a block in a System, of which no byte is copied.
    ///
    /// # Errors
    /// Want of memory, where too many share the System's path.
    pub fn within(system: &SystemPath, name: Text) -> Result<Path, OutOfMemory>
        ensures { IfOk result (λ path. path ≡ system.now ++ codes "/" ++ name) }
    {
        let around = Some(Arc::try_clone(&system.path)?);
        Ok(Path { around, name })
    }

    /// The path of the System around it, where it has one, and its name in there.
    pub fn split(&self) -> (Option<&Path>, &[u8])
        ensures { self.now ≡ joined (option_copied result.0) result.1.now }
    {
        match &self.around {
            Some(around) => {
                let around: &Path = around;
                (Some(around), self.name.bytes())
            }
            None => (None, self.name.bytes()),
        }
    }

    /// Appends the bytes of the whole path.
    ///
    /// # Errors
    /// Want of memory.
    pub fn put(&self, out: &mut Vec<u8>) -> Result<(), OutOfMemory>
        ensures { OnOk result (out.new.items ≡ out.old.items ++ self.now) }
    {
        if let Some(around) = &self.around {
            let around: &Path = around;
            around.put(out)?;
            out.extend_from_slice(b"/")?;
        }
        out.extend_from_slice(self.name.bytes())?;
        Ok(())
    }

    /// The bytes of the whole path.
    ///
    /// # Errors
    /// Want of memory.
    pub fn text(&self, alloc: Global) -> Result<Text, OutOfMemory>
        ensures { IfOk result (λ text. text ≡ self.now) }
    {
        let mut bytes = Vec::new(alloc);
        self.put(&mut bytes)?;
        Text::from_vec(alloc, bytes)
    }
}

impl SystemPath {
    /// A path that others may share.
    ///
    /// # Errors
    /// Want of memory.
    pub fn new(alloc: Global, path: Path) -> Result<SystemPath, OutOfMemory>
        ensures { IfOk result (λ system. system ≡ path) }
    {
        let path = Arc::new(alloc, path)?;
        Ok(SystemPath { path })
    }

    /// The same path once more, of which no byte is copied.
    ///
    /// # Errors
    /// Want of memory, where too many share it.
    pub fn share(&self) -> Result<SystemPath, OutOfMemory>
        ensures { IfOk result (λ system. system ≡ self.now) }
    {
        let path = Arc::try_clone(&self.path)?;
        Ok(SystemPath { path })
    }
}
