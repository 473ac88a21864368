ghost use Rattle.std.specs.Prelude.{◌≡◌, IfErr, IfOk};
ghost use Rattle.dg_model.specs.PlanOf.{IsPlanOf};
ghost use Rattle.hw_latency.specs.Latency.{AreLatencies, IsLatencyFault};

use crate::arcs::arcs_of;
use crate::fed::fed_of;
use dg_model::{Checked, Resolved};
use fx_io::{Flags, Longs, OutOfMemory, Periods, Sizes};
use hw_arcs::Found;
use std::alloc::Global;

/// How late the outputs of a diagram's blocks are by a plan, in base samples (own; HDL Coder, delay
/// balancing).
#[derive(Drop)]
pub struct Latencies {
    /// The latency of each block, the least that the edges leave.
    pub lat: Longs,
    /// For each block of a latency above 0 the number of an edge that asks for it.
    pub tight: Periods,
    /// Whether a shared operation stands in the instant cone of each block.
    pub fed: Flags,
}

/// Why there are no latencies (own).
#[derive(Drop)]
pub enum LatencyFault {
    /// A cycle of edges leaves none.
    Cycle {
        /// Its blocks, from the least on.
        blocks: Sizes,
        /// How many base samples it gains each time round.
        total: i64,
    },
    /// Memory is wanting.
    OutOfMemory,
}

impl From<OutOfMemory> for LatencyFault {
    ghost use Rattle.std.specs.Prelude.{◌≡◌};
    ghost use Rattle.hw_latency.specs.declared.latencies.LatencyFault.TheVariants.{OutOfMemory};

    ghost from_gives = { λ _ fault. fault ≡ OutOfMemory };

    fn from(_refused: OutOfMemory) -> LatencyFault {
        LatencyFault::OutOfMemory
    }
}

/// The most edges that are numbered.
const MOST_EDGES: usize = 1 << 32;

/// The least latencies that the edges of a checked diagram leave by a plan, or a cycle of edges
/// that leaves none. Its time is linear in the edges without feedback; more than 2^32 edges are
/// want of memory.
pub fn latencies_of(
    alloc: Global,
    checked: &Checked,
    plan: &Resolved,
) -> Result<Latencies, LatencyFault>
    requires plan { IsPlanOf checked.now.diagram plan.now }
    ensures least { IfOk result (AreLatencies checked.now.diagram plan.now) }
    ensures broken { IfErr result (IsLatencyFault checked.now.diagram plan.now) }
{
    checked.keeps_rules();
    let count = checked.diagram().blocks.as_slice().len();
    let fed = fed_of(alloc, checked, plan)?;
    let arcs = arcs_of(alloc, checked, plan, fed.as_slice())?;
    if arcs.len() > MOST_EDGES {
        // word: the number of an edge, of 32 bits
        return Err(LatencyFault::OutOfMemory);
    }
    match hw_arcs::latencies(alloc, arcs.as_slice(), checked.order(), count)? {
        Found::Least { lat, tight } => Ok(Latencies {
            lat,
            tight,
            fed: Flags::from_vec(fed),
        }),
        Found::Gains(gaining) => Err(LatencyFault::Cycle {
            blocks: gaining.blocks,
            total: gaining.total as i64,
        }),
    }
}
