//! The flat diagram of nested blocks and lines: subsystems are taken apart, and the rules of wiring and
//! of enabled subsystems are kept or broken.
//!
//! The contract of `flatten` is told by `specs/`: `Parts` has the words (paths, ports, the enabled
//! subsystem around a block), `Flat` says which diagram comes out (`IsFlatOf`), and `Rules` when the
//! two rules are broken, and where. `Origins` says which nested block each block comes from, and `Groups`
//! in which subsystem of the root it stands, as `groups` tells. `specs/inner` has the tables that the
//! functions fill.
#![tactic(auto)]

mod blocks;
mod edges;
mod enables;
mod flattening;
mod grouping;
mod kinds;
mod laws;
mod numbering;
mod paths;
mod ports;
mod rows;
mod systems;
mod tally;
mod wiring;

pub use flattening::flatten;
pub use grouping::groups;
pub use laws::{broken_is_one, flat_is_not_broken, flat_is_one, flat_is_there, origins_are};
