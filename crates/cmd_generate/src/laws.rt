ghost use Rattle.cmd_generate.specs.Plain.{EmptyPlansMakeDesigns, PlainDesignsAreAtOnce, PlainPlansMakeDesigns};

/// By a plan that shares no multiplier and has no registers behind a block a model that keeps its rules
/// makes a design, where its storage is within the limit; and in it no block is late, and each is ready
/// at once.
pub fn plain_plans_make_designs()
    ensures times { PlainDesignsAreAtOnce }
    ensures designs { PlainPlansMakeDesigns }
    ensures empty { EmptyPlansMakeDesigns }
{
    hw_plain::plain_plans_are_at_once();
    hw_plain::plain_plans_break_storage();
}
