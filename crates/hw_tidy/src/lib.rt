//! The passes over a netlist, one after another.
//!
//! A pass makes a netlist that can be run and emitted and stands in the place of the one before
//! (`hw_refine`). So does the whole row.
#![tactic(auto)]

mod tidying;

pub use tidying::tidy;
