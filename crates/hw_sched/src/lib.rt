//! Which multipliers serve the shared operations of a diagram by a plan, and when; and how large the
//! module is that they make.
//!
//! `Level` says how many shared blocks stand one behind another, `Slots` which operations are of one
//! kind, and in which slot of its period and at which multiplier each stands. `Ready` says when
//! outputs are ready and how late root outputs are in clocks. The rules of budget and of size are
//! those of `Budget` and `Storage`; `Answer` says what `slots_of` answers, and `Sizing` what
//! `check_size` does. `Chained` counts the registers of a module whose lines share them. What all of
//! these say together of a diagram that keeps the rules (`Scheduled`) are `laws`: they are all that is
//! wanted of a schedule when a module is built and proved.
#![tactic(auto)]

mod block_registers;
mod cells;
mod deepening;
mod drivers;
mod edge_lines;
mod keys;
mod laws;
mod lines;
mod numbers;
mod operands;
mod output_latency;
mod readying;
mod sizing;
mod slots;
mod spans;

pub use deepening::depths;
pub use drivers::{own_width, width_into};
pub use hw_slots::SlotFault as BudgetFault;
pub use laws::{
    depths_are_one, edges_are_in_time, edges_join_periods, lines_are_edges,
    operations_are_numbered, operations_are_served, periods_are_above, ready_fits, ready_rises,
    root_inputs_are_first, slots_differ, unfed_are_ready, units_are_used,
};
pub use sizing::{SizeFault, Sizing, check_size};
pub use slots::{Slots, slots_of};
