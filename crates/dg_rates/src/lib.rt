//! The periods of a diagram's blocks, or the first block that breaks the rule of rates.
//!
//! `rates` gives the periods of the rounds (`periods_of` of `dg_model`) of a diagram that keeps the
//! rule (`KeepsRates`), or the fault of one that breaks it (`BreaksRate`). Declared periods are decimals
//! that are compared without rounding. `joins_periods` tells the crates above which kinds join two
//! periods.
#![tactic(auto)]

mod agreeing;
mod declared;
mod links;
mod rating;
mod rounds;
mod units;

pub use agreeing::joins_periods;
pub use rating::rates;
