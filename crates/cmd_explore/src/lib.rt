//! The word that names a range of plans, and the text of what is found of them.
//!
//! `read_range` reads a word such as `1..8,0..4` (`specs/RangeWord`), `findings_text` writes a line
//! for each plan and the least one (`specs/FindingsText`).
#![tactic(auto)]

mod range_word;
mod writing;

pub use range_word::{plain_number, read_range};
pub use writing::findings_text;
