//! How late the blocks of a diagram are by a plan.
//!
//! A plan's registers make the outputs behind them late, and every other way to where they are read
//! has to be as late. `Weight` says by how much an edge makes its end later than its source at the
//! least, `Latency` which latencies are the least that meet this at each edge, and when there are
//! none. What an edge asks hangs on whether shared operations (`Shared`) stand in the instant cone of
//! its source (`Cone`).
//!
//! `latencies_of` marks these sources along the order of a checked diagram, lists what each edge asks,
//! and has the least latencies found from that (`hw_arcs`). Its time is that of the edges, but where
//! feedback makes latencies rise more than once. What is asked of one edge, and by which control
//! (`Control`), is for the crates above too.
#![tactic(auto)]

mod arcs;
mod block;
mod fed;
mod latencies;
mod laws;
mod periods;
mod shared;
mod weight;

pub use arcs::control_of;
pub use block::block_at;
pub use latencies::{Latencies, LatencyFault, latencies_of};
pub use laws::{
    fed_is_one, latencies_are_one, latencies_are_small, latency_cycles_leave_none,
    unasked_blocks_are_zero,
};
pub use shared::{is_shared, multiplies};
pub use weight::{arc_between, is_registered, samples};
