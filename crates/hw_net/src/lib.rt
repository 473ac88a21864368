//! Netlists: nets with a word each, and what each net shows at each clock.
//!
//! A netlist is data (`specs/Circuit`) with an index of its Counters. `specs/NetRows` says what its
//! nets show, as a fact about a function of net and clock: no order of evaluation and no state
//! stands in it. `specs/Netlist` says which netlists can be run (`hw_run` runs them), and
//! `specs/Growing` what a later netlist keeps of one that grows.
#![tactic(auto)]

mod circuit;
mod frame_index;
mod laws;
mod netlist;

pub use circuit::Netlist;
pub use frame_index::FrameIndex;
pub use laws::{
    accumulator_is_closed, bridge_is_closed, counter_is_closed, counter_is_telling,
    enabled_register_is_closed, register_is_closed, steps_give_rows,
};
pub use netlist::{
    Frame, Net, NetKind, NetLabel, NetLabels, NetOp, NetPort, NetPorts, Nets, arity,
};
