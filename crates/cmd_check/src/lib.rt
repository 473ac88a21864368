//! The text that tells the periods, latencies and types of a model's blocks by a plan, and why its
//! outputs are so late.
//!
//! `specs/CheckText` says what `put_check` writes; `specs/Paths` says along which edges the path of
//! an output leads. Paths are put from their names, which blocks share, so that the text is never
//! held: `gather` takes the memory that is needed, and nothing is taken behind the first put.
//! `specs/Handed` says what a sink took of bytes that were handed over, and what still waits.
#![tactic(auto)]

mod gathering;
mod outputs;
mod paths;
mod pending;
mod pieces;
mod quoting;
mod writing;

pub use gathering::{Gathered, clocks_of, gather};
pub use writing::put_check;
