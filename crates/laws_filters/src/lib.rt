//! What the filters of a diagram that keeps the rules show: the convolution of their coefficients with
//! their input.
#![tactic(auto)]

mod laws;

pub use laws::{filters_convolve, filters_fit};
