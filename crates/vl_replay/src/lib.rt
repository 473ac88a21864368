//! Driving a Verilog machine by a stimulus, and sampling what it shows.
//!
//! `columns` gives the columns of a module's stimulus and response. `Replay::new` takes all memory,
//! `Replay::advance` goes on by a sample, and `Replay::row` gives its numbers. An output shows its
//! number of a sample some samples late, so numbers wait in a ring of rows until the last of their
//! sample is there: one row more than the latest comes later than the earliest. Where the latest
//! comes long after the stimulus, whole rounds of the clocks between are left out (`resting`). The
//! contract: the rows are those of what is `Sampled`, the numbers of the run that starts with every
//! register 0, in which `reset` is 1 for one row, and each input then shows its numbers while
//! `clk_enable` of a module that can stall is 1. By the law `one_response` no other numbers are,
//! and by `some_response` these are.
//!
//! The definitions: `specs/Columns` says which columns a module has, `specs/Sampled` what is sampled,
//! and `specs/Replays` what callers see of a `Replay`. `specs/inner` is cited by private contracts
//! alone.
#![tactic(auto)]

mod drivers;
mod laws;
mod playing;
mod port_columns;
mod replay;
mod resting;
mod samplers;

pub use laws::{one_response, some_response};
pub use port_columns::{PortColumns, columns};
pub use replay::Replay;
