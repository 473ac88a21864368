//! Lines: a source shown later to its readers, by one chain of registers with a tap for each use.
//!
//! `specs/Line` says what a line owes its reader, and `specs/Chain` what a chain owes for all uses
//! of a source: its answers, and which nets it puts behind the others. `laws` says which registers
//! pay it, from what a register shows alone (`specs/Taps`). A register behind a net, with the
//! Counter of its frame, is `register_at`.
#![tactic(auto)]

mod ends;
mod laws;
mod lines;
mod registers;
mod source;
mod source_taps;

pub use laws::{bridge_meets, phase_register_meets, tap_holds, tap_meets, tap_steps};
pub use lines::{chain, line};
pub use registers::register_at;
pub use source::{Source, Use};
