//! What the definitions together say. The function does nothing.
ghost use Rattle.hw_module.specs.Laws.{BuiltModulesAreOf, RefinedModulesAreOf};

/// The module of a netlist that is built for a diagram is all that is owed of it.
pub fn built_modules_owe_nothing()
    ensures { BuiltModulesAreOf }
{
    dg_model::columns_are_a_stimulus();
    dg_model::root_elements_are_listed();
    hw_sched::periods_are_above();
    hw_sched::operations_are_served();
    hw_sched::slots_differ();
    hw_sched::ready_fits();
    vl_ast::one_driver();
}

/// The same of a netlist that stands in the place of one that is built.
pub fn refined_modules_owe_nothing()
    ensures { RefinedModulesAreOf }
{
    dg_model::columns_are_a_stimulus();
    dg_model::root_elements_are_listed();
    hw_sched::periods_are_above();
    hw_sched::operations_are_served();
    hw_sched::slots_differ();
    hw_sched::ready_fits();
    vl_ast::one_driver();
}
