//! The identifiers of Verilog: which bytes are a name, and none of the reserved words.
//!
//! The definitions are in `specs/`: `Identifiers` (letters, digits and underscores) and `Reserved` (the
//! words that no name may be).
#![tactic(auto)]

mod identifiers;

pub use identifiers::is_identifier;
