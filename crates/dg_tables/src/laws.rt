//! Laws of the equations. The functions do nothing.
ghost use Rattle.dg_tables.specs.Laws.{TablesAreOne, SomeTableSolves, SolvedIsInRange, EntriesStay, EntryIsOne, OperationsPrepare, TypesAreValid, SignalsFit};
ghost use Rattle.dg_tables.specs.Steps.{KeptMoves, KeptIsRead, StepsStand};

/// For a diagram that keeps the rules at most one table solves (own).
pub fn tables_are_one()
    ensures { TablesAreOne }
{
    dg_blocks::each_is_one();
}

/// For a diagram that keeps the rules and every stimulus in range some table solves (own).
pub fn some_table_solves()
    ensures { SomeTableSolves }
{
    dg_blocks::each_is_one();
}

/// What a table that solves shows is in the range of its type (own).
pub fn solved_is_in_range()
    ensures { SolvedIsInRange }
{
    dg_blocks::each_is_one();
}

/// At a hit the entry of a table that solves is the one number that its equation gives (own).
pub fn entry_is_one()
    ensures { EntryIsOne }
{
    dg_blocks::each_is_one();
}

/// Off its hits a block keeps the entry of the sample before (Simulink reference, discrete sample
/// time).
pub fn entries_stay()
    ensures { EntriesStay }
{}

/// What is kept after a sample is what was kept, moved by the sample, and serves the equations
/// (own).
pub fn kept_moves()
    ensures moves { KeptMoves }
    ensures read { KeptIsRead }
    ensures stand { StepsStand }
{}

/// The types of a checked diagram are valid, and its operations can be prepared.
pub fn operations_prepare()
    ensures operations { OperationsPrepare }
    ensures types { TypesAreValid }
    ensures fit { SignalsFit }
{
    dg_blocks::each_is_one();
}
