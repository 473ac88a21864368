//! What the definitions together say. Each law is a function that does nothing.
ghost use Rattle.cmd_model.specs.Laws.{BrokenIsOne, DiagramIsOne, LineIsOne, ModelIsThere, VerdictIsOne};
ghost use Rattle.cmd_model.specs.inner.Singles.{EachIsOne};

/// A text is the model of at most one diagram.
pub fn diagram_is_one()
    ensures { DiagramIsOne }
{
    mdl_text::unique();
    mdl_build::nested_is_one();
    dg_flat::flat_is_one();
}

/// Each step from a text to a verdict gives one thing at most.
fn each_is_one()
    ensures { EachIsOne }
{
    mdl_text::unique();
    mdl_text::one_fault_line();
    mdl_build::nested_is_one();
    mdl_build::fault_is_one();
    mdl_build::nested_is_not_broken();
    dg_flat::flat_is_one();
    dg_flat::broken_is_one();
    dg_flat::flat_is_not_broken();
    dg_rules::fault_is_one();
    dg_rules::checked_is_not_broken();
}

/// A text has at most one verdict, but for which cycle a fault of the rule of loops tells: it is no MDL
/// text, from this line on, or breaks this rule first, at this place and with this shown, or has this
/// diagram.
pub fn verdict_is_one()
    ensures one { VerdictIsOne }
    ensures broken { BrokenIsOne }
    ensures line { LineIsOne }
{
    each_is_one();
}

/// A text that stands for a tree can't both be the model of no diagram and break none of the rules.
pub fn model_is_there()
    ensures { ModelIsThere }
{
    mdl_build::nested_is_there();
    dg_flat::flat_is_there();
    dg_rules::rule_is_there();
}
