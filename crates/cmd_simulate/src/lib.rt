//! The response of a checked diagram to the bytes of a stimulus, a line per sample.
//!
//! `simulation_in` reads the stimulus by the columns of the diagram's root ports and takes all memory
//! that the lines need; `put_response` puts them one by one, and `response_text` makes one text of
//! them. `specs/Simulating` says what a simulation is before its first sample, which lines it has and
//! what may be wrong with a stimulus.
#![tactic(auto)]

mod simulation;

pub use simulation::{Simulation, put_response, response_text, simulation_in};
