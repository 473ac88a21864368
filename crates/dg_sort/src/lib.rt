//! The rule of loops: an order of a diagram's blocks, or blocks that need each other's values.
//!
//! The contract of `order` stands in `dg_model`: an order has every block once, each after those
//! from which an instant edge leads to it (`IsOrder`). Where there is none the fault is that of the
//! rule (`BreaksLoop`): a cycle of instant edges, begun with the least block that lies on any.
//!
//! `rows_of` lists for each block the blocks that it reads in its own sample (`AreRows`), for the
//! crates above too, as are `reads_now` and `control_now` for one block (`Control`). `search` goes
//! over the rows in depth and gathers blocks that read each other in groups; `cycle` shows a cycle
//! through one. Each takes time in the blocks and edges.
#![tactic(auto)]

mod cycle;
mod instant;
mod ordering;
mod rows;
mod search;

pub use instant::{control_now, reads_now};
pub use ordering::order;
pub use rows::rows_of;
