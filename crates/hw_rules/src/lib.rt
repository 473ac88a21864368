//! The rules of latency, budget and size that a plan keeps on a checked diagram, in their order.
//!
//! `times_of` works out latencies, slots and size, or tells the first rule that is broken; `times_by`
//! does so by latencies that are known, and `plan_on` finds the paths of a plan first. `specs/Rules` says what the rules together are, `specs/Times`
//! what is worked out. `multiplications` says how many multiplications the module owes.
#![tactic(auto)]

mod owing;
mod planned;
mod times;

pub use owing::multiplications;
pub use planned::{Planned, plan_on};
pub use times::{Times, times_by, times_of};
