ghost use Rattle.cmd_sample.specs.Laws.{ModelsStand, PlanIsGood};

/// The model text of each sample stands for a tree.
pub fn models_stand()
    ensures { ModelsStand }
{}

/// No line of the plan's text is bad.
pub fn plan_is_good()
    ensures { PlanIsGood }
{}
