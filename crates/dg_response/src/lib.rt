//! The response of a checked diagram to the rows of a stimulus.
//!
//! `columns` gives the columns of a diagram's stimulus and response, `Responding` the numbers of its
//! root outputs sample by sample: those of the table that solves the diagram (`IsResponse` of
//! `specs/Response.antt`), in room for one sample.
#![tactic(auto)]

mod laws;
mod responding;
mod root_columns;

pub use laws::{one_response, some_response};
pub use responding::Responding;
pub use root_columns::{RootColumns, columns};
