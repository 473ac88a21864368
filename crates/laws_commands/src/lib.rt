//! What the program's commands say of one another, for all texts.
//!
//! `simulate` works out the equations of a model's diagram, and `replay` runs the module that a Verilog
//! text spells. Of the text that `generate` writes of that model and any plan the two say the same,
//! byte for byte (`replays_are_responses`), and of the same stimuli (`replays_are_as_simulations`), also
//! where the text is only known to be no longer than a file may be (`files_are_replayed`); so
//! what a sample compares agrees (`samples_agree`). The rows of a simulation are a stimulus of its
//! model's diagram, whose blocks have an order (`simulations_are_stimulated`).
#![tactic(auto)]

mod laws;

pub use laws::{
    files_are_replayed, replays_are_as_simulations, replays_are_responses, samples_agree,
    simulations_are_stimulated,
};
