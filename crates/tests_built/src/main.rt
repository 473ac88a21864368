//! Builds the netlists of models by plans, steps them clock by clock, and compares what their ports
//! show in each clock of their windows with the numbers that the simulator gives; and tells the
//! schedules of plans.
//!
//! Standard input has texts and rows over them (`tests_rows` says how they are written):
//!
//! | row | what it does |
//! |---|---|
//! | `plan NAME` | the text, with the parts of the row exchanged, is the plan from here on |
//! | `stimulus NAME` | the text is the stimulus from here on |
//! | `built NAME WORD ..` | the text is a model, whose netlist by the plan is stepped under the stimulus, as it is built and as it is tidied |
//! | `held NAME WORD ..` | the text is a model, in whose netlist by the plan registers and Counters are counted |
//! | `tidied NAME WORD ..` | the text is a model, whose nets by the plan are counted, as it is built and as it is tidied |
//! | `scheduled NAME WORD ..` | the text is a model, whose schedule by the plan is told |
//!
//! The words of the last four are printed as they stand, without their parts, and then the rule that
//! is broken, how many registers and Counters there are, how many nets there were, are left and hold numbers, the schedule, or of each input port its name, and of each
//! output port its name, its declared latency and how many numbers, of all that it showed in the
//! windows of its hits, were equal to those of the simulation.
//!
//! | where | what is printed of a schedule |
//! |---|---|
//! | the model is no MDL text | the line that says so, from 1 |
//! | a rule is broken, up to that of latency | the line that tells it (`cmd_model::rule_text`) |
//! | a line of the plan is bad | which one |
//! | else | of each block, in file order, its path, its latency in base samples, how many shared blocks of its period stand one behind another up to it, and whether it is fed by one |
//! | a period has too few slots | then the line that tells it |
//! | else | then of each shared operation its block's path and its element, its slot in its period and its multiplier, and of each root output its path, the clock of its period at which it is ready and the latency that is declared of it, in clocks |
//! | there is too much storage, or too late an output | then the line that tells it |
//! | else | then the storage and the greatest declared latency |
//!
//! How many numbers there are to compare, how late outputs are and which rules are broken was worked
//! out by hand. The schedules were given by an independent reference, and those of some dozen plans
//! worked out by hand too.
#![tactic(auto)]

mod answers;
mod cases;
mod comparing;
mod designs;
mod schedules;
mod stepping;
mod windows;

use crate::cases::Case;
use anyhow::Result;
use tests_rows::answer_lines;

fn main(rt: HostRuntime) -> Result<()> {
    let mut case = Case::new(rt.alloc());
    answer_lines(&rt, rt.alloc(), &mut case)
}
