//! What the values of block parameters say: numbers, lists, signs, periods, widths, types and words.
//!
//! `specs/Pieces.antt` says how a text is cut: at separators, at blanks, and in brackets. The other
//! files of `specs/` say which texts are a value of each kind. `specs/Reads.antt` says what a reading
//! gives: a value that the text has, or none where it has none.
#![tactic(auto)]

mod brackets;
mod laws;
mod lists;
mod numbers;
mod periods;
mod pieces;
mod signs;
mod types;
mod words;

pub use laws::values_are_one;
pub use lists::{read_list, read_sizes};
pub use numbers::read_number;
pub use periods::{read_constant_time, read_period, read_sample_time, read_width};
pub use signs::read_signs;
pub use types::read_type;
pub use words::{
    read_criterion, read_gate, read_relation, read_reset, read_rounding, read_switch, value_beside,
};
