//! What the definitions together say. The functions do nothing.
ghost use Rattle.hw_build.specs.Laws.{OneTurnAtATime, SchedulesAreTimed, SlotsAreScheduled};
ghost use Rattle.hw_build.specs.inner.Done.{DoneIsBuilt};

/// The times of a schedule are such as waves need.
pub fn schedules_are_timed()
    ensures { SchedulesAreTimed }
{
    hw_latency::unasked_blocks_are_zero();
    hw_sched::periods_are_above();
    hw_sched::lines_are_edges();
    hw_sched::edges_join_periods();
    hw_sched::edges_are_in_time();
    hw_sched::operations_are_served();
    hw_sched::root_inputs_are_first();
    hw_sched::ready_fits();
    hw_sched::ready_rises();
}

/// A multiplier serves one operation for one hit in a clock.
pub fn one_turn_at_a_time()
    ensures { OneTurnAtATime }
{
    hw_sched::operations_are_served();
    hw_sched::slots_differ();
    hw_sched::ready_fits();
}

/// What the steps of a building leave is all that a netlist owes.
pub fn done_is_built()
    ensures { DoneIsBuilt }
{
    dg_model::edges_stand_by_port();
    dg_model::root_elements_are_listed();
    dg_tables::operations_prepare();
    hw_sched::operations_are_served();
    hw_sched::ready_fits();
    hw_shows::built_is_shown();
    schedules_are_timed();
}

/// A checked diagram and a plan with its latencies and slots are scheduled.
pub fn slots_are_scheduled()
    ensures { SlotsAreScheduled }
{}
