//! Arcs between blocks, what they ask of latencies, and the least latencies that keep them.
//!
//! An arc asks that its end is later than its source by its gain, but for its slack (`Latencies`).
//! `Found` says what is asked of arcs and what is answered: the least latencies, each above 0 with
//! an arc that asks for it, or a cycle along which the gains are greater than the slacks, and which
//! leaves none (`laws`).
#![tactic(auto)]

mod arc;
mod found;
mod laws;
mod parts;
mod relaxing;
mod ring;
mod solving;
mod waiting;
mod walking;

pub use arc::{Arc, Arcs};
pub use found::{Found, Gaining};
pub use laws::{
    gaining_cycles_leave_none, least_latencies_are_bounded, unasked_latencies_are_zero,
};
pub use solving::latencies;
