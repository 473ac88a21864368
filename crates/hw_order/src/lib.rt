//! The nets of a netlist in an order in which each stands after those that it reads in the same clock.
//!
//! By it the nets are gone over where what is found of a net rests on what it reads. There are rows of
//! every netlist that can be run, and no more than one list under the same inputs.
#![tactic(auto)]

mod laws;
mod order;

pub use laws::{rows_are_one, rows_are_there};
pub use order::{is_ranked, order_of};
