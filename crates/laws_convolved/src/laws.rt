//! What the definitions together say. Each law is a function that does nothing.
ghost use Rattle.laws_convolved.specs.Commands.{GeneratedConvolve, SimulationsConvolve};
ghost use Rattle.laws_convolved.specs.Laws.{FiltersAreFlat};
ghost use Rattle.laws_convolved.specs.Shown.{ModelsConvolve};
ghost use Rattle.laws_convolved.specs.inner.LawsBelow.{AreKnown};

/// What the crates below say together.
fn all_are_known()
    ensures { AreKnown }
{
    dg_filters::counted_hits_go_on();
    dg_model::root_elements_are_listed();
    dg_model::columns_are_a_stimulus();
    dg_tables::operations_prepare();
    hw_sched::periods_are_above();
    hw_sched::lines_are_edges();
    hw_sched::edges_join_periods();
    laws_filters::filters_fit();
    laws_filters::filters_convolve();
}

/// A filter of blocks and lines is one in their flat diagram.
pub fn filters_are_flat()
    ensures { FiltersAreFlat }
{
    fir_block::blocks_are_counted();
}

/// In each table that solves a model's diagram, the entry of the sum of each of the model's filters at
/// a hit is the convolution of its coefficients with its input (Simulink reference, Discrete FIR
/// Filter, direct form), and so is what a root output that it feeds shows.
pub fn models_convolve()
    ensures { ModelsConvolve }
{
    all_are_known();
    filters_are_flat();
    mdl_build::filters_stand();
}

/// In each simulation of a model, the column of a filter's output is the convolution of its
/// coefficients with the column of its input; and in each run of a module that is generated of the
/// model, reset and then driven by a stimulus, its output shows each of these numbers in its window.
pub fn commands_convolve()
    ensures simulated { SimulationsConvolve }
    ensures generated { GeneratedConvolve }
{
    all_are_known();
    models_convolve();
    laws_commands::simulations_are_stimulated();
}
