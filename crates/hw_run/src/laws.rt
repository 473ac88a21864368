//! What follows of a run of a netlist alone. The functions do nothing.
ghost use Rattle.hw_run.specs.Run.{RunsGoOn, StateShowsRows};

/// A run of a netlist begins before its first clock, and each clock that goes as the netlist says
/// goes on.
pub fn runs_go_on()
    ensures { RunsGoOn }
{}

/// The state of a run has the numbers of the netlist's rows at the last clock that was made.
pub fn state_shows_rows()
    ensures { StateShowsRows }
{}
