ghost use Rattle.std.specs.Prelude.{◌≡◌, ◌<◌, ◌≤◌, ◌^◌, IfOk, IfSome, OnOk, length};
ghost use Rattle.hw_arcs.specs.Found.{AreKnown, IsWhole, most_joined_blocks};
ghost use Rattle.hw_arcs.specs.inner.Parts.{IsSearch, blocks_of};
ghost use Rattle.hw_arcs.specs.inner.State.{AreRows};

use crate::arc::Arc;
use fx_io::{OutOfMemory, Sizes};
use std::alloc::Global;

/// A block, and where it stands among those that arcs join.
#[derive(Clone, Copy)]
pub struct Placed {
    /// Its number.
    pub block: u32,
    /// The part that it belongs to: blocks that lead to one another. A part is greater than those
    /// that its blocks lead to.
    pub part: u64,
    /// Its place in its part: greater than that of the blocks that were met through it.
    pub place: u64,
}

/// What a search along arcs notes of a block, in steps from 1.
#[derive(Clone, Copy)]
struct Mark {
    /// The step that met it, or 0.
    met: u64,
    /// The earliest step known to have met a block of its part that it leads to.
    back: u64,
    /// How many arcs of its row are still to be followed.
    unfollowed: usize,
    /// The step that found all of them followed, or 0.
    left: u64,
    /// The step that closed its part, or 0.
    closed: u64,
}

const UNMET: Mark = Mark {
    met: 0,
    back: 0,
    unfollowed: 0,
    left: 0,
    closed: 0,
};

/// A search along arcs, the deepest block first, for the parts of blocks that lead to one another
/// (Tarjan's).
#[derive(Drop)]
struct Search {
    /// What is noted of each block.
    marks: Vec<Mark>,
    /// The blocks to begin with, the next one last.
    roots: Vec<u32>,
    /// The way from the block that was begun with to the one at hand.
    path: Vec<u32>,
    /// The blocks whose part isn't closed, in the order in which they were met.
    unclosed: Vec<u32>,
}

impl Search {
    /// A search that begins with the last of the roots.
    fn begin(alloc: Global, roots: &[u32], count: usize) -> Result<Search, OutOfMemory>
        requires { IsWhole roots.now count }
        ensures { IfOk result (IsSearch count) }
    {
        Ok(Search {
            marks: vec![in alloc; UNMET; count]?,
            roots: Vec::from_slice(alloc, roots)?,
            path: Vec::new(alloc),
            unclosed: Vec::new(alloc),
        })
    }

    /// Meets a block from which so many arcs lead.
    fn meet(&mut self, block: u32, arcs: usize, step: u64) -> Result<(), OutOfMemory>
        requires there { block < length self.old.marks.items }
        requires search { IsSearch (length self.old.marks.items) self.old }
        ensures { OnOk result (IsSearch (length self.old.marks.items) self.new) }
    {
        self.marks[block as usize] = Mark {
            met: step,
            back: step,
            unfollowed: arcs,
            left: 0,
            closed: 0,
        };
        self.path.push(block)?;
        self.unclosed.push(block)?;
        Ok(())
    }

    /// Begins with the next root, unless it was met.
    fn begin_next(&mut self, rows: &[Sizes], step: u64) -> Result<(), OutOfMemory>
        requires size { length rows.now ≡ length self.old.marks.items }
        requires search { IsSearch (length self.old.marks.items) self.old }
        ensures { OnOk result (IsSearch (length self.old.marks.items) self.new) }
    {
        let Some(root) = self.roots.pop() else {
            return Ok(());
        };
        if self.marks[root as usize].met > 0 {
            return Ok(());
        }
        self.meet(root, rows[root as usize].as_slice().len(), step)
    }

    /// The end of the next arc from a block: those put last into its row are followed first.
    fn follow(&mut self, arcs: &[Arc], rows: &[Sizes], block: u32) -> Option<u32>
        requires there { block < length self.old.marks.items }
        requires known { AreKnown arcs.now (length self.old.marks.items) }
        requires rows { AreRows arcs.now (length self.old.marks.items) rows.now }
        requires search { IsSearch (length self.old.marks.items) self.old }
        ensures end { IfSome result (λ end. end < length self.old.marks.items) }
        ensures search { IsSearch (length self.old.marks.items) self.new }
    {
        let mark = self.marks[block as usize];
        let unfollowed = mark.unfollowed.checked_sub(1)?;
        self.marks[block as usize] = Mark { unfollowed, ..mark };
        let number = *rows[block as usize].as_slice().get(unfollowed)?;
        Some(arcs[number as usize].to)
    }

    /// Notes that a block was met that another leads to.
    fn reach(&mut self, from: u32, step: u64)
        requires there { from < length self.old.marks.items }
        requires search { IsSearch (length self.old.marks.items) self.old }
        ensures { IsSearch (length self.old.marks.items) self.new }
    {
        let mark = self.marks[from as usize];
        self.marks[from as usize] = Mark {
            back: mark.back.min(step),
            ..mark
        };
    }

    /// Closes the part of the block that was met first of its blocks.
    fn close(&mut self, first: u32, step: u64)
        requires search { IsSearch (length self.old.marks.items) self.old }
        ensures { IsSearch (length self.old.marks.items) self.new }
    {
        'part: while let Some(block) = self.unclosed.pop() {
            let mark = self.marks[block as usize];
            self.marks[block as usize] = Mark {
                closed: step,
                ..mark
            };
            if block == first {
                break 'part;
            }
        }
    }

    /// Leaves a block whose arcs were all followed.
    fn leave(&mut self, block: u32, step: u64)
        requires there { block < length self.old.marks.items }
        requires search { IsSearch (length self.old.marks.items) self.old }
        ensures { IsSearch (length self.old.marks.items) self.new }
    {
        let mark = self.marks[block as usize];
        self.marks[block as usize] = Mark { left: step, ..mark };
        self.path.pop();
        if mark.back == mark.met {
            self.close(block, step);
            return;
        }
        if let Some(before) = self.path.last().copied() {
            self.reach(before, mark.back);
        }
    }

    /// Begins with a root, follows an arc or leaves a block.
    fn step(&mut self, arcs: &[Arc], rows: &[Sizes], step: u64) -> Result<(), OutOfMemory>
        requires known { AreKnown arcs.now (length self.old.marks.items) }
        requires rows { AreRows arcs.now (length self.old.marks.items) rows.now }
        requires search { IsSearch (length self.old.marks.items) self.old }
        ensures { OnOk result (IsSearch (length self.old.marks.items) self.new) }
    {
        let Some(block) = self.path.last().copied() else {
            return self.begin_next(rows, step);
        };
        let Some(end) = self.follow(arcs, rows, block) else {
            self.leave(block, step);
            return Ok(());
        };
        let mark = self.marks[end as usize];
        if mark.met == 0 {
            return self.meet(end, rows[end as usize].as_slice().len(), step);
        }
        if mark.closed == 0 {
            self.reach(block, mark.met);
        }
        Ok(())
    }

    /// Where the search placed the blocks of an order.
    fn places(&self, alloc: Global, order: &[u32]) -> Result<Vec<Placed>, OutOfMemory>
        requires whole { IsWhole order.now (length self.now.marks.items) }
        ensures { IfOk result (λ placed. blocks_of placed.items ≡ order.now) }
    {
        let mut placed = Vec::new(alloc);
        for block in order {
            let mark = self.marks[*block as usize];
            placed.push(Placed {
                block: *block,
                part: mark.closed,
                place: mark.left,
            })?;
        }
        Ok(placed)
    }
}

/// The blocks of an order, those of a part behind all that they lead to, and of one part those
/// behind that were met first. Linear in the arcs but for the sorting.
pub fn parts_of(
    alloc: Global,
    arcs: &[Arc],
    rows: &[Sizes],
    order: &[u32],
) -> Result<Vec<Placed>, OutOfMemory>
    requires known { AreKnown arcs.now (length rows.now) }
    requires rows { AreRows arcs.now (length rows.now) rows.now }
    requires few { length arcs.now ≤ 2 ^ 32 }
    requires whole { IsWhole order.now (length rows.now) }
    ensures { IfOk result (λ placed. IsWhole (blocks_of placed.items) (length rows.now)) }
{
    let mut search = Search::begin(alloc, order, rows.len())?;
    // each root and each arc takes one step, and each block is left once
    let steps = order.len() as u64 + rows.len() as u64 + arcs.len() as u64;
    for done in 0..steps {
        search.step(arcs, rows, done + 1)?;
    }
    let mut placed = search.places(alloc, order)?;
    placed.sort_by_key(|it| it.place)?;
    placed.sort_by_key(|it| it.part)?;
    Ok(placed)
}
