//! The module that a design owes, with and without valid and ready round it, and its text.
//!
//! `verilog_of` makes the module of a model by a plan, `streamed_of` that with valid and ready round it;
//! `parts_of` spells a module in parts, `text_of` the module of a diagram as one text. The headline's
//! `IsVerilogOf` is in `specs/Generated`: the text spells a module alone, and that module owes the design
//! of the two texts nothing. `specs/Streamed` says what the module with valid and ready owes besides.
//! `plain_plans_make_designs` is a law of plans without sharing and pipelining (`specs/Plain`): of these
//! only the rule of storage can be broken.
#![tactic(auto)]

mod laws;
mod steady;
mod streamed;
mod verilog;

pub use laws::plain_plans_make_designs;
pub use streamed::streamed_of;
pub use verilog::{parts_of, text_of, verilog_of};
