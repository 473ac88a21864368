ghost use Rattle.tests_premises.specs.Explored.{ExploresWhole};
ghost use Rattle.tests_premises.specs.Neighbours.{AreNotOwed};
ghost use Rattle.tests_premises.specs.Owed.{WholeModulesOwe};
ghost use Rattle.tests_premises.specs.Premises.{MeetsPremises};
ghost use Rattle.tests_premises.specs.Running.{WholeModulesRun};
ghost use Rattle.tests_premises.specs.Shown.{WholeModulesShow};
ghost use Rattle.tests_premises.specs.Streams.{AreNoStreams, StreamsOwe};
ghost use Rattle.tests_premises.specs.Told.{ChecksTell};

/// The texts are those of the design: the model and the plan keep their rules. One multiplier serves two
/// operations, and the table solves the diagram.
pub fn whole_model()
    ensures { MeetsPremises }
{}

/// Each module with the ports of the design that breaks no condition has a run in which the stimulus drives
/// it and every row behind the one with `reset` is a clock.
pub fn whole_modules()
    ensures { WholeModulesRun }
{
    vl_ast::one_run();
}

/// Each module that is owed of the design has a run in which it shows the numbers of the table, multiplies
/// both elements by one multiplication, and holds them in registers.
pub fn whole_modules_show()
    ensures { WholeModulesShow }
{
    vl_ast::one_run();
}

/// Each module that is owed of the design has few registers, holds both elements in registers of its own,
/// and goes on behind stalls as without them; by a plan of two registers it has them one behind the other,
/// and by a plan that shares nothing each product has its wire.
pub fn whole_modules_owe()
    ensures { WholeModulesOwe }
{}

/// No module is owed of a plan whose clocks don't suffice, none with a register too many, none in which another
/// reads a register, and none that lacks the wire of a product. No path that begins at a late block tells a
/// latency, and no name is given with a number while a lesser one is free.
pub fn neighbours_are_not_owed()
    ensures { AreNotOwed }
{}

/// No module with valid and ready is owed that breaks a condition, none that isn't ready in the first row behind
/// a reset though its outputs may be taken, and none that hands over a sample that it hasn't taken.
pub fn neighbours_are_no_streams()
    ensures { AreNoStreams }
{}

/// A check of the design writes the text that was worked out by hand and no other, and no way that is one block
/// wrong tells why an output is late.
pub fn checks_tell()
    ensures { ChecksTell }
{}

/// Each module with valid and ready that is owed of the design has its one multiplication and its ports, takes
/// a sample in three clocks, and shows the numbers of the table where it hands samples over.
pub fn streams_owe()
    ensures { StreamsOwe }
{}

/// Of one multiplier in two clocks and in three is found and written what was worked out by hand, and nothing
/// else.
pub fn explores_tell()
    ensures { ExploresWhole }
{
    hw_latency::fed_is_one();
    hw_latency::latencies_are_one();
    hw_latency::latency_cycles_leave_none();
    hw_sched::depths_are_one();
}
