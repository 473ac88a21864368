// What the definitions together say. Each law is a function that does nothing.
ghost use Rattle.hw_latency.specs.Laws.{FedIsOne, LatenciesAreOne, LatenciesAreSmall};
ghost use Rattle.hw_latency.specs.Laws.{LatencyCyclesLeaveNone, UnaskedBlocksAreZero};

/// What is fed by shared operations is one thing.
pub fn fed_is_one()
    ensures { FedIsOne }
{}

/// The least latencies are one list.
pub fn latencies_are_one()
    ensures { LatenciesAreOne }
{}

/// A cycle of edges that gains leaves no latencies.
pub fn latency_cycles_leave_none()
    ensures { LatencyCyclesLeaveNone }
{
    hw_arcs::gaining_cycles_leave_none();
}

/// The least latencies are no greater than 65 of the longest periods for each block.
pub fn latencies_are_small()
    ensures { LatenciesAreSmall }
{
    hw_arcs::least_latencies_are_bounded();
}

/// A block that reads only what never changes has the latency 0.
pub fn unasked_blocks_are_zero()
    ensures { UnaskedBlocksAreZero }
{
    hw_arcs::unasked_latencies_are_zero();
}
