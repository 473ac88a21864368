//! Shared multipliers as nets.
//!
//! Operations come with their frames, slots and multipliers, and with the nets of their operands.
//! For each multiplier one chain of Choose nets on either side offers the operands of an operation
//! in its slot (`choosing`), by a test that all operations of that clock share (`moments`). A Unit
//! net has the product (`multiplying`), and a register for each operation keeps it from the next
//! clock to the end of the frame (`keeping`). An accumulator adds up what a net shows in some slots of
//! a frame (`accumulating`), so that a sum of such products wants no register for each.
//! `specs/Operations` says what is asked of operations, and `specs/Shared` what is owed for them,
//! `specs/Gathered` both for an accumulator.
#![tactic(auto)]

mod accumulating;
mod choosing;
mod combining;
mod joining;
mod keeping;
mod moments;
mod multiplying;
mod operation;
mod sharing;
mod testing;

pub use accumulating::accumulate;
pub use joining::count_of;
pub use operation::Operation;
pub use sharing::{Shared, units};
