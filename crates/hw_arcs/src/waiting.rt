ghost use Rattle.std.specs.Prelude.{◌≡◌, ◌++◌, ◌∷◌, [], IfOk, OnOk};
ghost use Rattle.hw_arcs.specs.inner.Parts.{IsPopped, awaited, blocks_of};

use crate::parts::Placed;
use fx_io::OutOfMemory;
use std::alloc::Global;
use std::collections::VecDeque;

/// Blocks that are to be looked at, part by part.
#[derive(Drop)]
pub struct Waiting {
    /// The blocks of later parts, the next part last.
    later: Vec<Placed>,
    /// Those of the part at hand, or of earlier ones.
    queue: VecDeque<u32>,
}

impl Waiting {
    /// All of the placed blocks wait.
    pub fn new(alloc: Global, later: Vec<Placed>) -> Waiting
        ensures { awaited result ≡ blocks_of later.items }
    {
        Waiting {
            later,
            queue: VecDeque::new(alloc),
        }
    }

    /// Puts a block behind those that wait.
    pub fn push(&mut self, block: u32) -> Result<(), OutOfMemory>
        ensures { OnOk result (awaited self.new ≡ awaited self.old ++ block ∷ []) }
    {
        self.queue.push_back(block)?;
        Ok(())
    }

    /// Takes the blocks of the next part into the queue, unless blocks are there.
    fn refill(&mut self) -> Result<(), OutOfMemory>
        ensures same { OnOk result (awaited self.new ≡ awaited self.old) }
        ensures some { OnOk result (self.new.queue.items ≡ [] → awaited self.new ≡ []) }
    {
        if !self.queue.is_empty() {
            return Ok(());
        }
        let Some(next) = self.later.pop() else {
            return Ok(());
        };
        self.queue.push_front(next.block)?;
        'part: while let Some(other) = self.later.last().copied() {
            if other.part != next.part {
                break 'part;
            }
            self.later.pop();
            self.queue.push_front(other.block)?;
        }
        Ok(())
    }

    /// Takes the next block.
    pub fn pop(&mut self) -> Result<Option<u32>, OutOfMemory>
        ensures { IfOk result (IsPopped (awaited self.old) (awaited self.new)) }
    {
        self.refill()?;
        Ok(self.queue.pop_front())
    }
}
