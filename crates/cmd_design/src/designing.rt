ghost use Rattle.std.specs.Prelude.{IfErr, IfOk, List, ℕ};
ghost use Rattle.dg_model.specs.PlanOf.{IsPlanOf};
ghost use Rattle.dg_model.specs.PlanRange.{IsPlanInRange};
ghost use Rattle.cmd_design.specs.Refused.{IsDesigned, IsRefusedDesign, IsRefusedModel};
ghost use Rattle.cmd_design.specs.inner.FaultTexts.{IsPlanSaid, IsPlannedSo, IsRefusedBy, IsRefusedPlan, IsRefusedText};
ghost use Rattle.hw_rules.specs.Times.{AreTimes};

use crate::refusal::{ModelRefusal, checked_of};
use cmd_model::rule_text;
use dg_model::{CheckFault, Checked, Plan, RuleFault};
use fx_io::{OutOfMemory, Text};
use fx_tables::{TableCause, TableFault, read_plan};
use hw_rules::{Planned, plan_on};
use std::alloc::Global;

/// A model's diagram under a plan that keeps the rules on it (own).
#[derive(Drop)]
pub struct Designed {
    /// The model's diagram.
    pub checked: Checked,
    /// The plan's numbers for its blocks, and their times.
    pub planned: Planned,
}

impl Designed {
    /// Frees the design, so that crates above needn't prove how.
    pub fn discard(self) {
        let Designed { checked, planned } = self;
        checked.discard();
        planned.discard();
    }
}

/// Why the texts of a model and of a plan make no design (own).
#[derive(Drop)]
pub enum DesignFault {
    /// The model's bytes are no MDL text; they stop being the beginning of one at this line, from 1.
    NotMdl { line: u64 },
    /// The model, or the plan on its diagram, breaks a rule, which this line tells.
    BreaksRule { line: Text },
    /// The plan has its first bad line there, from 1.
    BadPlan { line: u64, cause: TableCause },
    /// Memory is wanting.
    OutOfMemory,
}

/// The plan of a text.
fn plan_of(alloc: Global, text: &[u8]) -> Result<Plan, DesignFault>
    ensures said { IfOk result (IsPlanSaid text.now) }
    ensures refused { IfErr result (IsRefusedText text.now) }
{
    match read_plan(alloc, text) {
        Ok(plan) => Ok(plan),
        Err(TableFault::Bad { line, cause }) => Err(DesignFault::BadPlan { line, cause }),
        Err(TableFault::OutOfMemory) => Err(DesignFault::OutOfMemory),
    }
}

/// The fault of a rule that a plan breaks on a diagram, by its line.
fn told_of(alloc: Global, checked: &Checked, fault: RuleFault) -> DesignFault
    ensures { IsRefusedBy checked.now.diagram fault result }
{
    let line = rule_text(alloc, &fault, checked.diagram().blocks.as_slice());
    fault.discard();
    match line {
        Ok(line) => DesignFault::BreaksRule { line },
        Err(OutOfMemory) => DesignFault::OutOfMemory,
    }
}

/// A plan on a diagram, with its times.
fn planned_on(alloc: Global, checked: &Checked, plan: &Plan) -> Result<Planned, DesignFault>
    requires { IsPlanInRange plan.now }
    ensures planned { IfOk result (IsPlannedSo checked.now.diagram plan.now) }
    ensures refused { IfErr result (IsRefusedPlan checked.now.diagram plan.now) }
{
    match plan_on(alloc, checked, plan) {
        Ok(planned) => Ok(planned),
        Err(CheckFault::Broken(fault)) => Err(told_of(alloc, checked, fault)),
        Err(CheckFault::OutOfMemory) => Err(DesignFault::OutOfMemory),
    }
}

/// The fault of a design whose model is refused so.
fn of_model(refusal: ModelRefusal) -> DesignFault
    ensures { (model text : List ℕ) → IsRefusedModel model refusal
        → IsRefusedDesign model text result }
{
    match refusal {
        ModelRefusal::NotMdl { line } => DesignFault::NotMdl { line },
        ModelRefusal::BreaksRule { line } => DesignFault::BreaksRule { line },
        ModelRefusal::OutOfMemory => DesignFault::OutOfMemory,
    }
}

/// The design of the bytes of a model and of a plan; no bytes are the empty plan.
///
/// # Errors
/// The first of these: `NotMdl`, `BreaksRule` by the rules of the model, `BadPlan`,
/// `BreaksRule` by the rules of the plan on the model's diagram. Or want of memory.
pub fn designed_of(alloc: Global, model: &[u8], plan: &[u8]) -> Result<Designed, DesignFault>
    ensures designed { IfOk result (IsDesigned model.now plan.now) }
    ensures plan { IfOk result (λ designed. IsPlanOf designed.checked.diagram
        designed.planned.resolved) }
    ensures times { IfOk result (λ designed. AreTimes designed.checked.diagram
        designed.planned.resolved designed.planned.times) }
    ensures refused { IfErr result (IsRefusedDesign model.now plan.now) }
{
    let checked = match checked_of(alloc, model) {
        Ok(checked) => checked,
        Err(refusal) => return Err(of_model(refusal)),
    };
    let plan = match plan_of(alloc, plan) {
        Ok(plan) => plan,
        Err(fault) => {
            checked.discard();
            return Err(fault);
        }
    };
    let planned = planned_on(alloc, &checked, &plan);
    plan.discard();
    match planned {
        Ok(planned) => Ok(Designed { checked, planned }),
        Err(fault) => {
            checked.discard();
            Err(fault)
        }
    }
}
