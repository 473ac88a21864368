//! The response of a Verilog text to the bytes of a stimulus, a line per sample.
//!
//! `response_of` reads the text and the stimulus and takes all memory that the lines need; `put_response`
//! puts them one by one, and `response_text` makes one text of them. `specs/Replayed` says what a replay
//! of the texts is and what may be wrong with them, `specs/Responding` what a response is before its
//! first sample and what each fault says. `TrueBench` replays what a sample's module is told by
//! (`specs/Benched`).
#![tactic(auto)]

mod bench;
mod response;

pub use bench::TrueBench;
pub use response::{ReplayFault, Response, put_response, response_of, response_text};
