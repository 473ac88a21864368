//! Words: the whole numbers that a signed or an unsigned binary word holds.
//!
//! A word is a width and a sign: 2 to 128 bits where it is signed (two's complement), 1 to 127 where
//! it is not. A number is carried by an `i128`, whatever its word. The calls wrap a number into a
//! word, test whether it fits, shift it up exactly, and go between a number and its bits. None of
//! them takes memory. The definitions that the contracts cite stand in `specs/Word.antt` of
//! `math_num`.
#![tactic(auto)]

mod word;

pub use word::{fits, from_bits, highest, is_word, lowest, shift_up, to_bits, wrap};
