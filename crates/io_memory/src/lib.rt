//! A shelf and a sink in memory, for tests (`specs/Memory.antt`): both fail where they were told to.
#![tactic(auto)]

mod held_file;
mod mem_shelf;
mod mem_sink;

pub use held_file::HeldFile;
pub use mem_shelf::MemShelf;
pub use mem_sink::{MemSink, PutSetup};
