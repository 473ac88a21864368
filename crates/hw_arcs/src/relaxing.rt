ghost use Rattle.std.specs.Prelude.{◌≡◌, ◌+◌, ◌<◌, ◌≤◌, ◌^◌, [], IfOk, OnOk, length};
ghost use Rattle.hw_arcs.specs.Latencies.{latency_at};
ghost use Rattle.hw_arcs.specs.Found.{AreKnown};
ghost use Rattle.hw_arcs.specs.inner.Parts.{blocks_of};
ghost use Rattle.hw_arcs.specs.inner.State.{AreCounted, AreRows, AreSettled, AreWithin, begun};
ghost use Rattle.hw_arcs.specs.inner.State.{IsRowEnd, IsState, IsStepEnd, relaxed, seen};

use crate::arc::Arc;
use crate::parts::Placed;
use crate::waiting::Waiting;
use fx_io::{OutOfMemory, Sizes};
use std::alloc::Global;

/// Latencies that rise until each arc is kept.
#[derive(Drop)]
pub struct Relaxing {
    /// The latency of each block so far.
    pub lat: Vec<u64>,
    /// The arc that gave a block its latency.
    pub tight: Vec<Option<u32>>,
    /// Whether a block is to be looked at.
    pub pending: Vec<bool>,
    /// The blocks that are to be looked at.
    pub queue: Waiting,
}

/// How far a step came.
#[derive(Clone, Copy)]
pub enum Step {
    /// Each arc is kept.
    Done,
    /// The arcs of a block were looked at.
    Settled { block: u32 },
    /// The latency of a block passes the limit.
    Above { block: u32 },
}

impl Relaxing {
    /// Latencies of 0, and every block to be looked at, the last part first.
    pub fn begin(alloc: Global, placed: Vec<Placed>, count: usize) -> Result<Relaxing, OutOfMemory>
        ensures { IfOk result (λ state. seen state ≡ begun (blocks_of placed.items) count) }
    {
        Ok(Relaxing {
            lat: vec![in alloc; 0; count]?,
            tight: vec![in alloc; None; count]?,
            pending: vec![in alloc; true; count]?,
            queue: Waiting::new(alloc, placed),
        })
    }

    /// Lets the end of an arc take what it asks, where that is more than it has.
    fn relax(&mut self, arc: Arc, number: u32) -> Result<(), OutOfMemory>
        requires from { arc.from < length self.old.lat.items }
        requires to { arc.to < length self.old.lat.items }
        requires tight { length self.old.tight.items ≡ length self.old.lat.items }
        requires pending { length self.old.pending.items ≡ length self.old.lat.items }
        requires room { latency_at self.old.lat.items arc.from + arc.gain < 2 ^ 64 }
        ensures { OnOk result (seen self.new ≡ relaxed (seen self.old) arc number) }
    {
        let reach = self.lat[arc.from as usize] + arc.gain;
        let label = reach.saturating_sub(arc.slack);
        let to = arc.to as usize;
        if self.lat[to] < label {
            self.lat[to] = label;
            self.tight[to] = Some(number);
            if !self.pending[to] {
                self.queue.push(arc.to)?;
            }
            self.pending[to] = true;
        }
        Ok(())
    }

    /// Looks at the arcs of a block. A block whose latency passes the limit is told.
    pub fn settle(
        &mut self,
        arcs: &[Arc],
        row: &[u32],
        limit: u64,
    ) -> Result<Option<u32>, OutOfMemory>
        requires known { AreKnown arcs.now (length self.old.lat.items) }
        requires row { AreCounted arcs.now row.now }
        requires limit { limit ≤ 2 ^ 62 }
        requires state { IsState arcs.now (length self.old.lat.items) (seen self.old) }
        requires within { AreWithin limit (seen self.old) }
        requires settled { AreSettled arcs.now (seen self.old) row.now }
        ensures size { OnOk result (length self.new.lat.items ≡ length self.old.lat.items) }
        ensures state { OnOk result (IsState arcs.now (length self.old.lat.items) (seen self.new)) }
        ensures end { IfOk result (λ above.
            IsRowEnd arcs.now limit (length self.old.lat.items) (seen self.old) (seen self.new)
            above) }
    {
        for number in row {
            let number = *number;
            let arc = arcs[number as usize];
            self.relax(arc, number)?;
            if limit < self.lat[arc.to as usize] {
                return Ok(Some(arc.to));
            }
        }
        Ok(None)
    }

    /// Looks at the arcs of the next block.
    pub fn step(&mut self, arcs: &[Arc], rows: &[Sizes], limit: u64) -> Result<Step, OutOfMemory>
        requires known { AreKnown arcs.now (length self.old.lat.items) }
        requires rows { AreRows arcs.now (length self.old.lat.items) rows.now }
        requires limit { limit ≤ 2 ^ 62 }
        requires state { IsState arcs.now (length self.old.lat.items) (seen self.old) }
        requires within { AreWithin limit (seen self.old) }
        requires settled { AreSettled arcs.now (seen self.old) [] }
        ensures size { OnOk result (length self.new.lat.items ≡ length self.old.lat.items) }
        ensures state { OnOk result (IsState arcs.now (length self.old.lat.items) (seen self.new)) }
        ensures end { IfOk result (λ step.
            IsStepEnd arcs.now (length self.old.lat.items) limit (seen self.old) (seen self.new)
            step) }
    {
        let Some(block) = self.queue.pop()? else {
            return Ok(Step::Done);
        };
        self.pending[block as usize] = false;
        let row = rows[block as usize].as_slice();
        match self.settle(arcs, row, limit)? {
            Some(above) => Ok(Step::Above { block: above }),
            None => Ok(Step::Settled { block }),
        }
    }
}
