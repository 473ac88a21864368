//! What plans without sharing and pipelining leave: by them no block is late, and of the rules on plans
//! only that of storage can be broken. Each law is a function that does nothing.
#![tactic(auto)]

mod laws;

pub use laws::{plain_plans_are_at_once, plain_plans_break_storage};
