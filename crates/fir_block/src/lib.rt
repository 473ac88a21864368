//! The discrete FIR filter, as the blocks that it stands for.
//!
//! A filter is read as a subsystem: an Inport, a chain of delays, a Gain for each coefficient and their
//! sum. `expand` gives these blocks and their lines, by `expansion_of` of `specs/Expanded.antt`.
#![tactic(auto)]

mod expanding;
mod filter;
mod laws;

pub use expanding::expand;
pub use filter::{Expansion, Fir, FirBlock, FirBlocks, extent};
pub use laws::{are_sound_blocks, blocks_are_counted, names_differ};
