//! What follows from the rows of a netlist alone. The functions do nothing.
ghost use Rattle.hw_net.specs.NetRows.{RowsAreOne, RowsAreThere};

/// A netlist has at most one list of rows under the same inputs.
pub fn rows_are_one()
    ensures { RowsAreOne }
{}

/// There are rows of every netlist, under any inputs and for any count of clocks.
pub fn rows_are_there()
    ensures { RowsAreThere }
{}
