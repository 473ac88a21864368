//! A netlist without the nets that nothing reaches.
//!
//! What stays is what the outputs show, the inputs, the factors and results of all multiplications,
//! what has a label, and all that these reach through what nets read, with the Counters of the
//! frames that registers name. It keeps its order.
#![tactic(auto)]

mod keeping;
mod marking;
mod spreading;
mod trimming;

pub use trimming::trim;
