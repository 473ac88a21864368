// What the definitions together say. Each law is a function that does nothing.
ghost use Rattle.hw_sched.specs.Numbered.{OperationsAreNumbered};
ghost use Rattle.hw_sched.specs.Laws.{PeriodsAreAbove, PeriodsAreShort, MovingHavePeriods, LinesAreEdges, ControlsAreEdges, EdgesJoinPeriods, UnfedAreReady, OperationsAreServed, OperationsHavePeriods, SlotsDiffer, UnitsAreThere, UnitsAreUsed, DepthsAreOne, NoneIntoRoots, RootsAreReady, ReadyFits, ReadyRises, OperandsAreReady, EdgesAreInTime};

/// Every period is above 0 and at most 4096, and a block whose values move on has one.
pub fn periods_are_above()
    ensures above { PeriodsAreAbove }
    ensures short { PeriodsAreShort }
    ensures moving { MovingHavePeriods }
{}

/// Each line is an edge, and so is the way from a control to each block that asks for it.
pub fn lines_are_edges()
    ensures lines { LinesAreEdges }
    ensures controls { ControlsAreEdges }
{}

/// An edge from a block of a period ends at one of the same period, or at a rate transition.
pub fn edges_join_periods()
    ensures { EdgesJoinPeriods }
{}

/// An output behind no shared operation is ready at once.
pub fn unfed_are_ready()
    ensures { UnfedAreReady }
{}

/// A shared operation is served in the slots of its level, before its block is ready, and that has a
/// period.
pub fn operations_are_served()
    ensures served { OperationsAreServed }
    ensures periods { OperationsHavePeriods }
{}

/// No edge ends at a root input, which is ready at once.
pub fn root_inputs_are_first()
    ensures none { NoneIntoRoots }
    ensures ready { RootsAreReady }
{}

/// Two operations of one multiplier are of one kind and have different slots, and the multiplier is
/// one of those that the kinds have.
pub fn slots_differ()
    ensures slots { SlotsDiffer }
    ensures units { UnitsAreThere }
{}

/// The depths of a diagram's blocks by a plan are one list.
pub fn depths_are_one()
    ensures { DepthsAreOne }
{}

/// An output is ready in its period.
pub fn ready_fits()
    ensures { ReadyFits }
{}

/// An output is ready no earlier than what it is made of in the same sample, and what a shared
/// operation reads is ready with its slot.
pub fn ready_rises()
    ensures outputs { ReadyRises }
    ensures operands { OperandsAreReady }
{}

/// The end of each edge is late enough for the registers of its source, and of its own.
pub fn edges_are_in_time()
    ensures { EdgesAreInTime }
{}

/// Slots and multipliers are those of `hw_slots`, where each kind goes by its number and each period
/// by itself.
pub fn operations_are_numbered()
    ensures { OperationsAreNumbered }
{}

/// Each multiplier that the kinds have serves an operation.
pub fn units_are_used()
    ensures { UnitsAreUsed }
{}
