//! What the definitions together say. Each law is a function that does nothing.
ghost use Rattle.mdl_build.specs.Filters.{FiltersStand};
ghost use Rattle.mdl_build.specs.Laws.{FaultIsOne, NestedIsNotBroken, NestedIsOne, NestedIsThere};

/// A tree has at most one list of blocks and lines.
pub fn nested_is_one()
    ensures { NestedIsOne }
{
    mdl_values::values_are_one();
}

/// The first of the rules of structure, library and parameter that is broken is told as one fault.
pub fn fault_is_one()
    ensures { FaultIsOne }
{
    mdl_values::values_are_one();
}

/// A tree that has blocks and lines breaks none of these rules.
pub fn nested_is_not_broken()
    ensures { NestedIsNotBroken }
{
    mdl_values::values_are_one();
}

/// A tree can't both have no blocks and lines and break none of these rules.
pub fn nested_is_there()
    ensures { NestedIsThere }
{
    mdl_values::values_are_one();
    fir_block::are_sound_blocks();
    fir_block::names_differ();
    fir_block::blocks_are_counted();
}

/// Each filter of a tree has its blocks and lines among those of the tree.
pub fn filters_stand()
    ensures { FiltersStand }
{
    mdl_values::values_are_one();
    fir_block::blocks_are_counted();
}
