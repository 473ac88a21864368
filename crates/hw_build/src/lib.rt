//! The netlist of a diagram.
//!
//! `specs/Built` says what it owes: what its nets show (`Shown`), which of its multiplications serve
//! which operations when (`Multipliers`), its pipelines (`Pipelined`) and its ports (`Ports`, `Names`).
//! `laws` says why: the times of a schedule are such as waves need (`Times`), and what the steps of
//! a building leave is all that is owed (`specs/inner/Done`).
#![tactic(auto)]

mod asks;
mod block_inputs;
mod blocks;
mod building;
mod chains;
mod coefficients;
mod controls;
mod design;
mod entries;
mod entry;
mod firsts;
mod full_types;
mod gathering;
mod hubs;
mod kept;
mod labels;
mod laws;
mod line_ends;
mod lining;
mod lowering;
mod offers;
mod operands;
mod outputs;
mod parts;
mod pipelines;
mod ports;
mod products;
mod shared;
mod site;
mod states;
mod wants;
mod worked;

pub use building::build;
pub use laws::{done_is_built, one_turn_at_a_time, schedules_are_timed, slots_are_scheduled};
