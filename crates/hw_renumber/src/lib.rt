//! A netlist made of nets of another, by other numbers.
//!
//! A pass over netlists finds which nets stay and what stands for each net; `renumbered` makes the
//! netlist of that.
#![tactic(auto)]

mod laws;
mod moving;
mod renumbering;

pub use laws::{renumbered_emits, renumbered_runs};
pub use renumbering::renumbered;
