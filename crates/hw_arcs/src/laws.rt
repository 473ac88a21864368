// What the definitions together say. Each law is a function that does nothing.
ghost use Rattle.hw_arcs.specs.Laws.{CyclesLeaveNone, LatenciesAreBounded, UnaskedAreZero};

/// A cycle that gains leaves no latencies.
pub fn gaining_cycles_leave_none()
    ensures { CyclesLeaveNone }
{}

/// A block that no arc asks anything of has the latency 0.
pub fn unasked_latencies_are_zero()
    ensures { UnaskedAreZero }
{}

/// The least latencies are no greater than what an arc asks at the most, for each block.
pub fn least_latencies_are_bounded()
    ensures { LatenciesAreBounded }
{}
