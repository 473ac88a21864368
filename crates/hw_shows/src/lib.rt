//! Waves: why nets that are built as a schedule says show the table of a diagram.
//!
//! `specs/Shows` says when a wave shows the entries of a table, `specs/Timing` and `specs/Timed` what
//! latencies, ready clocks and slots keep, as numbers, and `specs/Series` and `specs/Waves` what the
//! nets of a diagram owe, by block, port and element. No netlist stands here: who builds one proves
//! these facts of its rows, and `laws` says what they show.
#![tactic(auto)]

mod laws;

pub use laws::built_is_shown;
