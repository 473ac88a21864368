//! A netlist whose nets read no copies and no repeated nets.
//!
//! A net that shows what another shows is read no more: what read it reads the other. That is a copy,
//! a choice between two that are one or by a constant, the bits of 0 or of another net, whether a bit
//! is above 0, a bit that is made of constants, and what does what another net does on the same nets.
//! A multiplication is no repeat, a net with a label keeps its readers, and the wire that a register
//! with a label takes gets none. The nets stay under their numbers, so `hw_trim` takes away what
//! nothing reads now.
#![tactic(auto)]

mod alike;
mod folding;
mod key;
mod knowing;
mod passing;
mod pinned;
mod roots;

pub use folding::fold;
