//! The names of a module's ports.
//!
//! `specs/Names` says which names the elements of root inputs and root outputs get; `port_names` gives
//! them all, `stream_names` those of a module with valid and ready, and `Names` one after another to who asks. `specs/Taken` says which names are taken,
//! `specs/Columns` where the elements of a block begin among the columns.
#![tactic(auto)]

mod columns;
mod giving;
mod names;

pub use columns::columns_of;
pub use giving::{discard, port_names, stream_names};
pub use names::{Names, put_number};
