//! Laws of filters. The functions do nothing.
ghost use Rattle.dg_filters.specs.Laws.{CountedHitsGoOn, TapsAreHeld};

/// Of the counted hits all but the latest are those counted before it.
pub fn counted_hits_go_on()
    ensures { CountedHitsGoOn }
{}

/// In a table that solves, tap k of a filter holds at a hit the input at the k-th counted hit before
/// it, or an initial value (Simulink reference, Discrete FIR Filter).
pub fn taps_are_held()
    ensures { TapsAreHeld }
{}
