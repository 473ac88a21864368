//! When what is renumbered can be run and emitted. The functions do nothing.
ghost use Rattle.hw_renumber.specs.Sound.{RenumberedEmits, RenumberedRuns};

/// A renumbered netlist can be run where nets stand for what is named.
pub fn renumbered_runs()
    ensures { RenumberedRuns }
{}

/// A renumbered netlist can be emitted where nets stand for what is named.
pub fn renumbered_emits()
    ensures { RenumberedEmits }
{}
