//! What the texts of a model and of a plan make: a checked diagram with the plan's numbers and its
//! times, or the first fault.
//!
//! `checked_of` gives the diagram of a model, `designed_of` that with a plan's numbers and times. A
//! rule that is broken is told by its line. `specs/Design` says what a design is and which faults
//! come before it, in the order of work: the model's text, its rules, the plan's text, its rules.
//! `specs/Refused` says what each fault tells.
#![tactic(auto)]

mod designing;
mod refusal;

pub use designing::{DesignFault, Designed, designed_of};
pub use refusal::{ModelRefusal, checked_of};
