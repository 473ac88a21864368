//! What the definitions together say. Each law is a function that does nothing.
ghost use Rattle.laws_commands.specs.Laws.{BadSimulatedIsReplayedOfFiles, HeldModulesAreRead, SimulatedIsReplayedOfFiles, SimulationsAreReplaysOfFiles};
ghost use Rattle.laws_commands.specs.FirstSample.{first_sample};
ghost use Rattle.laws_commands.specs.Laws.{BadReplayedIsSimulated, BadSimulatedIsReplayed, DiagramsAreOrdered, ReplayedIsSimulated, ReplaysAreResponses, ReplaysAreSimulations, SamplesAgree, SamplesAreEqual, SimulatedIsReplayed, SimulationsAreReplays, SimulationsAreStimulated};
ghost use Rattle.laws_samples.specs.Columns.{HasSampleColumns};
ghost use Rattle.laws_commands.specs.inner.LawsBelow.{AreKnown};

/// What the crates below say together.
fn all_are_known()
    ensures { AreKnown }
{
    cmd_model::diagram_is_one();
    cmd_model::verdict_is_one();
    dg_model::root_elements_are_listed();
    dg_model::columns_are_a_stimulus();
    dg_tables::solved_is_in_range();
    dg_tables::operations_prepare();
    dg_response::some_response();
    hw_sched::periods_are_above();
    hw_sched::edges_join_periods();
    hw_sched::unfed_are_ready();
    hw_sched::ready_fits();
    vl_replay::some_response();
}

/// What a replay tells of the text that is generated of a model is what a simulation tells of the
/// model, byte for byte: each replay is a simulation, and each simulation a replay, where the module
/// isn't too long to be read.
pub fn replays_are_responses()
    ensures same { ReplaysAreResponses }
    ensures replays { ReplaysAreSimulations }
    ensures simulations { SimulationsAreReplays }
{
    all_are_known();
}

/// The stimuli of that text are those of the model, and others have the same first bad line for both,
/// where the module isn't too long to be read.
pub fn replays_are_as_simulations()
    ensures replayed { ReplayedIsSimulated }
    ensures simulated { SimulatedIsReplayed }
    ensures bad_replayed { BadReplayedIsSimulated }
    ensures bad_simulated { BadSimulatedIsReplayed }
{
    all_are_known();
}

/// No generated text that a file can hold is too long to be read, so simulations of its model are
/// replays of it, and the model's stimuli and their bad lines are its own.
pub fn files_are_replayed()
    ensures few { HeldModulesAreRead }
    ensures simulations { SimulationsAreReplaysOfFiles }
    ensures simulated { SimulatedIsReplayedOfFiles }
    ensures bad_simulated { BadSimulatedIsReplayedOfFiles }
{
    all_are_known();
}

/// What the bench of `run` tells of the module of a sample is the response that it is compared with,
/// where the module isn't too long to be read. So the summary ends in `equal 12 of 12` where the
/// diagram has the columns of samples, as that of sample 1 has, drawn by hand.
pub fn samples_agree()
    ensures agree { SamplesAgree }
    ensures equal { SamplesAreEqual }
    ensures columns { HasSampleColumns first_sample }
{
    all_are_known();
}

/// The rows of a simulation are a stimulus of its model's diagram, whose blocks have an order.
pub fn simulations_are_stimulated()
    ensures ordered { DiagramsAreOrdered }
    ensures stimulated { SimulationsAreStimulated }
{
    all_are_known();
}
