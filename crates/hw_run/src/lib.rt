//! Plain runs of netlists, clock by clock, whether a netlist can be run, and which nets can be given an
//! argument.
//!
//! A run (`specs/State`, `specs/Run`) shows the rows of its netlist (`hw_net`): tests step netlists by
//! it.
#![tactic(auto)]

mod checking;
mod laws;
mod operation;
mod resizing;
mod state;
mod stepping;
mod timing;

pub use checking::is_netlist;
pub use laws::{runs_go_on, state_shows_rows};
pub use resizing::is_resize;
pub use state::NetState;
