ghost use Rattle.std.specs.Prelude.{◌≡◌, ◌∷◌, [], ◌++◌, List, Some, not, is_none, slice_index_or, IfOk, IsTrue};
ghost use Rattle.std.specs.Bool.{OnTrue};
ghost use Rattle.std.specs.List.{filter_map};
ghost use Rattle.std.specs.Option.{option_to_list};
ghost use Rattle.fx_tables.specs.Plan.{cycles_of, multipliers_of, pipeline_of, is_repeated};
ghost use Rattle.fx_tables.specs.inner.PlainPlan.{entry_of, is_bad_entry};
ghost use Rattle.fx_tables.specs.inner.Draft.{Describes, IsDraftInRange, IsEntryInRange};
ghost use Rattle.dg_model.specs.PlanRange.{IsPlanInRange};
ghost use Rattle.fx_tables.specs.declared.entry.PlanEntry.{PlanEntry};

use crate::entry::{PlanEntry, read_entry};
use dg_model::{Pipeline, Pipelines, Plan};
use fx_io::OutOfMemory;
use std::alloc::Global;
use std::collections::BTreeSet;

/// What the lines of a plan have said so far.
#[derive(Drop)]
pub(crate) struct Draft {
    pub(crate) cycles: Option<u32>,
    pub(crate) multipliers: Option<u32>,
    pub(crate) pipelines: Pipelines,
    pub(crate) paths: BTreeSet<Vec<u8>>,
}

impl Draft {
    /// A draft of which nothing is said.
    pub(crate) fn new(alloc: Global) -> Draft
        ensures empty { Describes result [] }
        ensures in_range { IsDraftInRange result }
    {
        Draft {
            cycles: None,
            multipliers: None,
            pipelines: Pipelines::new(alloc),
            paths: BTreeSet::new(alloc),
        }
    }

    /// Reads one line into the draft, and tells whether it is good.
    pub(crate) fn read_line(&mut self, alloc: Global, text: &[u8]) -> Result<bool, OutOfMemory>
        ensures describes { IfOk result (λ good.
            (earlier : List PlanEntry) → Describes self.old earlier →
            (good ≡ not (is_bad_entry earlier (entry_of text.now)))
            × OnTrue good (Describes self.new (earlier ++ option_to_list (entry_of text.now)))) }
        ensures in_range { IfOk result (λ good.
            IsTrue good → IsDraftInRange self.old → IsDraftInRange self.new) }
    {
        match read_entry(alloc, text)? {
            None => Ok(false),
            Some(entry) => self.add(alloc, entry),
        }
    }

    /// Adds what a line says, and tells whether no earlier line has said it.
    fn add(&mut self, alloc: Global, entry: PlanEntry) -> Result<bool, OutOfMemory>
        ensures describes { IfOk result (λ new.
            (earlier : List PlanEntry) → Describes self.old earlier →
            (new ≡ not (is_repeated earlier entry))
            × OnTrue new (Describes self.new (earlier ++ entry ∷ []))) }
        ensures in_range { IfOk result (λ new.
            IsTrue new → IsEntryInRange entry →
            IsDraftInRange self.old → IsDraftInRange self.new) }
    {
        match entry {
            PlanEntry::Passed => Ok(true),
            PlanEntry::Cycles(count) => Ok(set_once(&mut self.cycles, count)),
            PlanEntry::Multipliers(count) => Ok(set_once(&mut self.multipliers, count)),
            PlanEntry::Pipelined(pipeline) => self.add_pipeline(alloc, pipeline),
        }
    }

    /// Adds the registers behind a block, and tells whether no earlier line has named it.
    fn add_pipeline(&mut self, alloc: Global, pipeline: Pipeline) -> Result<bool, OutOfMemory>
        ensures describes { IfOk result (λ new.
            (earlier : List PlanEntry) → Describes self.old earlier →
            (new ≡ not (is_repeated earlier (PlanEntry.Pipelined pipeline)))
            × OnTrue new (Describes self.new (earlier ++ PlanEntry.Pipelined pipeline ∷ []))) }
        ensures in_range { IfOk result (λ new.
            IsTrue new → IsEntryInRange (PlanEntry.Pipelined pipeline) →
            IsDraftInRange self.old → IsDraftInRange self.new) }
    {
        let path = Vec::from_slice(alloc, pipeline.path.bytes())?;
        if !self.paths.insert(path)? {
            return Ok(false);
        }
        self.pipelines.push(pipeline)?;
        Ok(true)
    }

    /// The plan of all lines.
    pub(crate) fn finish(self) -> Plan
        ensures said { (entries : List PlanEntry) → Describes self entries →
            (result.cycles ≡ slice_index_or (filter_map cycles_of entries) 0 1)
            × (result.multipliers ≡ slice_index_or (filter_map multipliers_of entries) 0 0)
            × (result.pipelines ≡ filter_map pipeline_of entries) }
        ensures in_range { IsDraftInRange self → IsPlanInRange result }
    {
        let Draft {
            cycles,
            multipliers,
            pipelines,
            paths: _paths,
        } = self;
        Plan {
            cycles: cycles.unwrap_or(1),
            multipliers: multipliers.unwrap_or(0),
            pipelines,
        }
    }
}

/// Sets the number where none is set, and tells whether it did.
fn set_once(slot: &mut Option<u32>, number: u32) -> bool
    ensures new { result ≡ is_none slot.old }
    ensures set { OnTrue result (slot.new ≡ Some number) }
{
    if slot.is_some() {
        return false;
    }
    *slot = Some(number);
    true
}
