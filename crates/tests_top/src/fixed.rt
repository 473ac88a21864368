//! A bench that tells the same bytes of every text.

use cmd_sample::Bench;
use fx_io::OutOfMemory;
use std::alloc::Global;

/// It tells these.
#[derive(Drop)]
pub struct Fixed<'a> {
    pub tells: &'a [u8],
}

impl<'a> Bench for Fixed<'a> {
    ghost use Rattle.std.specs.Prelude.{⊤};

    ghost tells = { λ bench. bench.tells.now };

    ghost may_tell = { λ _ _ _. ⊤ };

    fn replay(
        &mut self,
        _alloc: Global,
        _verilog: &[u8],
        _stimulus: &[u8],
    ) -> Result<(), OutOfMemory> {
        Ok(())
    }

    fn told(&self) -> &[u8] {
        self.tells
    }
}
