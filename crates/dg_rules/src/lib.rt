//! The rules of a diagram together, and the paths of a plan in it.
//!
//! `check` tries the rules of dimensions, types, rates and loops one after another, and gives the diagram
//! with what propagation gives its blocks, or the first rule that it breaks (`BreaksRule` of `dg_model`).
//! `resolve` finds the blocks that the lines of a plan name, or tells the first line that names none
//! or one that no register may stand behind (`BreaksPlan` of `dg_model`).
#![tactic(auto)]

mod checking;
mod ends;
mod laws;
mod lines;
mod resolving;
mod standing;

pub use checking::{Refused, check};
pub use laws::{
    checked_is_not_broken, cycles_differ, fault_is_one, rule_is_there, shown_cycle_is_one,
};
pub use resolving::resolve;
