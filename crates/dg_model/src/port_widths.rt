ghost use Rattle.std.specs.Prelude.{◌≡◌, ◌<◌, ◌≤◌, ◌-◌, ◌++◌, ◌∷◌, [], length, slice_index_or, IfOk, OnOk};
ghost use Rattle.dg_model.specs.Widths.{width_at};
ghost use Rattle.dg_model.specs.inner.Flat.{parts_of, AreStarts};

use fx_io::{OutOfMemory, PortSizes, Sizes};
use std::alloc::Global;
use std::marker::Model;

/// The widths of the signals at the output ports of each block, in elements (Simulink reference, signal
/// dimensions). A block without an output port has its own width at port 1. Contracts see a list of
/// widths for each block.
#[derive(Drop)]
pub struct PortWidths {
    /// Where the widths of each block begin.
    starts: Sizes,
    /// The widths of all blocks, one block behind another.
    all: Sizes,
}

impl Model for PortWidths {
    ghost use Rattle.std.specs.Prelude.{ℕ, List, length};
    ghost use Rattle.dg_model.specs.inner.Flat.{parts_of, AreStarts};

    ghost Value = { List (List ℕ) };

    ghost view = { λ widths. parts_of widths.starts widths.all };

    ghost invariant = { λ widths. AreStarts widths.starts (length widths.all) };
}

/// Puts one more part behind the others.
fn put_part(starts: &mut Sizes, all: &mut Sizes, part: &[u32]) -> Result<(), OutOfMemory>
    requires { AreStarts starts.old (length all.old) }
    ensures grown { OnOk result (parts_of starts.new all.new
        ≡ parts_of starts.old all.old ++ part.now ∷ []) }
    ensures starts { OnOk result (AreStarts starts.new (length all.new)) }
{
    let Ok(start) = u32::try_from(all.as_slice().len()) else {
        return Err(OutOfMemory);
    };
    for width in part {
        all.push(*width)?;
    }
    starts.push(start)?;
    Ok(())
}

impl PortWidths {
    /// The widths of these lists, one list for each block.
    ///
    /// # Errors
    /// Want of memory, also where the count of all widths has no room in 32 bits.
    pub fn of(alloc: Global, lists: &PortSizes) -> Result<PortWidths, OutOfMemory>
        ensures { IfOk result (λ widths. widths ≡ lists.now) }
    {
        let mut starts = Sizes::new(alloc);
        let mut all = Sizes::new(alloc);
        for part in lists.as_slice() {
            put_part(&mut starts, &mut all, part.as_slice())?;
        }
        Ok(PortWidths { starts, all })
    }

    /// The width at an output port, from 1, of a block, by its place. It takes no memory.
    pub fn at(&self, block: u32, port: u32) -> u32
        requires port { 1 ≤ port }
        requires there { port - 1 < length (slice_index_or self.now block []) }
        ensures { result ≡ width_at self.now block port }
    {
        let start = self.starts.as_slice()[block as usize];
        self.all.as_slice()[start as usize + (port - 1) as usize]
    }
}
