//! What an elementwise block gives of its inputs, at each call or prepared once for all samples.
//!
//! The contract of `output` is the block's equation: its result is what the operation gives
//! (`OpGives` of `dg_model`'s `specs/Operation.antt`), wherever the operation may be carried out
//! (`CanCarryOut`, there too). That is exactly one number (`specs/Laws.antt`). Sums and products are
//! computed without loss in 128 bits, which the validity of their full types allows, and then
//! converted once.
//!
//! `Prepared::new` takes a call and works out what depends on its types alone (`specs/Prepared.antt`);
//! `Prepared::output` then gives the same, in steps of 64 bits where these are enough. No call takes
//! memory.
#![tactic(auto)]

mod carrying;
mod conditions;
mod exact;
mod laws;
mod narrow;
mod operation;
mod prepared;
mod preparing;
mod short_sums;

pub use laws::{each_is_one, operation_gives_one};
pub use operation::output;
pub use prepared::Prepared;
