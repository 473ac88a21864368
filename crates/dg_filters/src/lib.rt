//! What filters in a diagram show.
#![tactic(auto)]

mod laws;

pub use laws::{counted_hits_go_on, taps_are_held};
