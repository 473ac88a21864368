//! What the filters of a model show: the convolution of their coefficients with their input.
//!
//! `specs/Laws.antt` says what a filter of a model is in its flat diagram, `specs/Shown.antt` what it
//! shows in a table that solves the diagram, and `specs/Commands.antt` what comes of it in a simulation
//! and in a run of what is generated.
#![tactic(auto)]

mod laws;

pub use laws::{commands_convolve, filters_are_flat, models_convolve};
