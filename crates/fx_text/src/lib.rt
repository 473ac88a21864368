//! What several text formats have in common: quoted strings with escapes, runs of digits, and bytes
//! and numbers that are put at the end.
//!
//! `specs/Strings.antt` has the one table of escapes and the form of a string, `specs/Digits.antt`
//! what a number is. `strings_are_forms` is the law that reading a string and its form agree.
#![tactic(auto)]

mod digits;
mod pushing;
mod strings;

pub use digits::{SHORT_DIGITS, read_capped, read_short};
pub use pushing::{push, push_number};
pub use strings::{QuotedText, plain_length, push_escaped, read_string, strings_are_forms};
