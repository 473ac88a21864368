ghost use Rattle.std.specs.Prelude.{◌≡◌, ◌-◌, ◌<◌, ◌≤◌, ◌++◌, [], All, IfOk, OnOk, Some, length, slice_get};
ghost use Rattle.dg_model.specs.Limits.{most_blocks};
ghost use Rattle.dg_sort.specs.Rows.{AreKnown};
ghost use Rattle.dg_sort.specs.inner.Search.{CanJoin, IsJoined, KeepsAllButGroups};
ghost use Rattle.dg_sort.specs.inner.Search.{begun, least_of, lowered, met, placed, placed_marks, seen};
ghost use Rattle.dg_sort.specs.inner.State.{IsFound, IsSearched, IsState, IsStep};

use fx_io::{OutOfMemory, Sizes};
use std::alloc::Global;

/// How far the search has come with a block.
#[derive(Clone, Copy)]
pub enum Mark {
    /// It was not met.
    Unmet,
    /// It stands at this place among the held ones.
    Held { place: usize },
    /// It is placed, in a group whose first block stands at this place of the order.
    Placed { rank: usize },
}

/// Held blocks from a place on, up to the next group, and the readings from a place on that are
/// left to be looked at. Each of its blocks leads back to each other, if it has more than one.
#[derive(Clone, Copy)]
pub struct Group {
    pub start: usize,
    pub edges: usize,
    pub is_cycle: bool,
}

/// The state of a search in depth for blocks that read each other.
#[derive(Drop)]
pub struct Search {
    /// How far it has come with each block.
    pub marks: Vec<Mark>,
    /// The blocks that are met and not placed: each leads back to those after it.
    pub held: Vec<u32>,
    /// The groups of these.
    pub groups: Vec<Group>,
    /// The blocks that they read and that are left to be looked at.
    pub edges: Vec<u32>,
    /// The placed blocks.
    pub order: Vec<u32>,
    /// The least placed block that lies on a cycle.
    pub first: Option<u32>,
}

/// The lesser of a block and another, where there is another.
fn lesser(first: Option<u32>, block: u32) -> Option<u32>
    ensures { result ≡ lowered first block }
{
    match first {
        None => Some(block),
        Some(other) => Some(other.min(block)),
    }
}

/// Places blocks, and tells the least of them and another where they lie on a cycle.
fn place_blocks(
    blocks: &[u32],
    rank: usize,
    is_cycle: bool,
    first: Option<u32>,
    marks: &mut Vec<Mark>,
    order: &mut Vec<u32>,
) -> Result<Option<u32>, OutOfMemory>
    requires { All (λ block. block < length marks.old.items) blocks.now }
    ensures marks { OnOk result (marks.new.items ≡ placed_marks rank blocks.now marks.old.items) }
    ensures order { OnOk result (order.new.items ≡ order.old.items ++ blocks.now) }
    ensures first { IfOk result (λ least. least ≡ least_of is_cycle blocks.now first) }
{
    let mut least = first;
    for block in blocks {
        let block = *block;
        marks[block as usize] = Mark::Placed { rank };
        order.push(block)?;
        if is_cycle {
            least = lesser(least, block);
        }
    }
    Ok(least)
}

impl Search {
    /// Before any block is met.
    fn begin(alloc: Global, count: usize) -> Result<Search, OutOfMemory>
        ensures { IfOk result (λ search. seen search ≡ begun count) }
    {
        Ok(Search {
            marks: vec![in alloc; Mark::Unmet; count]?,
            held: Vec::new(alloc),
            groups: Vec::new(alloc),
            edges: Vec::new(alloc),
            order: Vec::new(alloc),
            first: None,
        })
    }

    /// Holds a block that was not met, as a group of its own.
    fn meet(&mut self, rows: &[Sizes], block: u32) -> Result<(), OutOfMemory>
        requires there { block < length rows.now }
        requires marked { length self.old.marks.items ≡ length rows.now }
        ensures { OnOk result (seen self.new ≡ met rows.now (seen self.old) block) }
    {
        self.marks[block as usize] = Mark::Held {
            place: self.held.len(),
        };
        self.groups.push(Group {
            start: self.held.len(),
            edges: self.edges.len(),
            is_cycle: false,
        })?;
        self.held.push(block)?;
        self.edges
            .extend_from_slice(rows[block as usize].as_slice())?;
        Ok(())
    }

    /// Joins the groups from that of a held block on: its blocks read each other.
    fn join(&mut self, place: usize)
        requires { CanJoin self.old.groups.items place }
        ensures groups { IsJoined self.old.groups.items self.new.groups.items place }
        ensures kept { KeepsAllButGroups (seen self.old) (seen self.new) }
    {
        let mut last = self.groups.len() - 1;
        while self.groups[last].start > place {
            last -= 1;
        }
        self.groups.truncate(last + 1);
        self.groups[last].is_cycle = true;
    }

    /// Places the blocks of the last group.
    fn place(&mut self, group: Group) -> Result<(), OutOfMemory>
        requires start { group.start ≤ length self.old.held.items }
        requires there { All (λ block. block < length self.old.marks.items) self.old.held.items }
        ensures { OnOk result (seen self.new ≡ placed (seen self.old) group) }
    {
        let rank = self.order.len();
        let blocks = &self.held[group.start..];
        let first = self.first;
        self.first = place_blocks(
            blocks,
            rank,
            group.is_cycle,
            first,
            &mut self.marks,
            &mut self.order,
        )?;
        self.held.truncate(group.start);
        self.groups.pop();
        Ok(())
    }

    /// One step: looks at a block that the last group reads, or places that group.
    fn step(&mut self, rows: &[Sizes], last: Group) -> Result<(), OutOfMemory>
        requires known { AreKnown rows.now }
        requires state { IsState rows.now (seen self.old) }
        requires last { slice_get self.old.groups.items (length self.old.groups.items - 1)
            ≡ Some last }
        ensures { OnOk result (IsStep rows.now (seen self.old) (seen self.new)) }
    {
        if self.edges.as_slice().len() == last.edges {
            return self.place(last);
        }
        let Some(source) = self.edges.pop() else {
            return Ok(());
        };
        match self.marks[source as usize] {
            Mark::Unmet => self.meet(rows, source),
            Mark::Held { place } => {
                self.join(place);
                Ok(())
            }
            Mark::Placed { .. } => Ok(()),
        }
    }

    /// Searches from a block that was not met, until nothing is held.
    fn search_from(&mut self, rows: &[Sizes], root: u32) -> Result<(), OutOfMemory>
        requires known { AreKnown rows.now }
        requires state { IsState rows.now (seen self.old) }
        requires free { self.old.groups.items ≡ [] }
        requires there { root < length rows.now }
        requires unmet { slice_get self.old.marks.items root ≡ Some Mark.Unmet }
        ensures { OnOk result (IsSearched rows.now (seen self.old) (seen self.new) root) }
    {
        self.meet(rows, root)?;
        while let Some(last) = self.groups.last() {
            let last = *last;
            self.step(rows, last)?;
        }
        Ok(())
    }
}

/// What a search of all blocks found.
#[derive(Drop)]
pub struct Found {
    /// The blocks, each once.
    pub order: Vec<u32>,
    /// The least block that lies on a cycle.
    pub first: Option<u32>,
}

/// Searches from each block. Where none lies on a cycle, each stands in the order after those it
/// reads.
pub fn search_all(alloc: Global, rows: &[Sizes]) -> Result<Found, OutOfMemory>
    requires known { AreKnown rows.now }
    requires few { length rows.now ≤ most_blocks }
    ensures { IfOk result (λ found. IsFound rows.now found.order.items found.first) }
{
    let mut search = Search::begin(alloc, rows.len())?;
    for root in 0..rows.len() {
        if let Mark::Unmet = search.marks[root] {
            search.search_from(rows, root as u32)?;
        }
    }
    let Search { order, first, .. } = search;
    Ok(Found { order, first })
}
