//! The module of a diagram under a plan: all that is owed of it.
//!
//! `specs/Design` says it in one record: the bits that outputs carry (`Carries`), which operation each
//! shared multiplier serves in which clock (`Serves`), and the pipelines and registers
//! (`Pipelined`). `laws` says why the module that is made of a built netlist is such, and `made`
//! makes it.
#![tactic(auto)]

mod laws;
mod made;

pub use laws::{built_modules_owe_nothing, refined_modules_owe_nothing};
pub use made::module_of;
