ghost use Rattle.hw_plain.specs.Plain.{PlainPlansAreAtOnce, PlainPlansBreakStorage};

/// By a plan that shares no multiplier and has no registers behind a block each latency, also the
/// declared ones, is 0, each block is ready at once, and each element of a product or a gain has a
/// multiplication of its own.
pub fn plain_plans_are_at_once()
    ensures { PlainPlansAreAtOnce }
{
    hw_sched::periods_are_above();
    hw_sched::edges_join_periods();
    hw_sched::unfed_are_ready();
}

/// Such a plan keeps the rules of plan, latency and budget, and breaks that of size by its storage
/// alone.
pub fn plain_plans_break_storage()
    ensures { PlainPlansBreakStorage }
{
    hw_arcs::gaining_cycles_leave_none();
    hw_sched::periods_are_above();
    hw_sched::edges_join_periods();
    hw_sched::unfed_are_ready();
}
