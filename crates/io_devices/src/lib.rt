//! What the program has of the system: its words, a shelf over the files, sinks over the streams,
//! which tell no content, and the status with which it ends.
#![tactic(auto)]

mod arguments;
mod ending;
mod files;
mod streams;

pub use arguments::words;
pub use ending::{CallEnd, closed, status_of};
pub use files::{FileShelf, Opens};
pub use streams::{Ended, ErrSink, OutSink, Rest, StreamSink};
