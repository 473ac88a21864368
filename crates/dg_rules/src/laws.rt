//! What the definitions together say. Each law is a function that does nothing.
ghost use Rattle.dg_rules.specs.Laws.{CheckedIsNotBroken, CyclesDiffer, FaultIsOne, RuleIsThere, ShownCycleIsOne, ToldIsOne};

/// The first rule of dimensions, types, rates and loops that is broken is told as one fault, but for
/// which cycle through its first block is told.
pub fn fault_is_one()
    ensures one { FaultIsOne }
    ensures told { ToldIsOne }
{}

/// A diagram that keeps these rules breaks none of them.
pub fn checked_is_not_broken()
    ensures { CheckedIsNotBroken }
{}

/// Of a loop several cycles may be told.
pub fn cycles_differ()
    ensures { CyclesDiffer }
{}

/// A shortest cycle through the least block, whose edges stand first, is one.
pub fn shown_cycle_is_one()
    ensures { ShownCycleIsOne }
{}

/// A wired diagram can't both not keep these rules and break none of them.
pub fn rule_is_there()
    ensures { RuleIsThere }
{}
