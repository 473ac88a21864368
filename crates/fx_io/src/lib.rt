//! The ground that every other crate stands on, in three parts.
//!
//! - Plain data: `Sequence`, `Boxed` and `Text`, which contracts see as a list, a value and bytes, and
//!   rows of items (`empty_rows`, `push_at`, `specs/Rows.antt`).
//! - `Shelf` and `Sink`: where files come from and where bytes go. Each counts its faults, and a
//!   fault is answered only where the count rose in the call (`specs/Shelf.antt`, `specs/Sink.antt`,
//!   `specs/Cause.antt`). `put_all` puts bytes to the last or leaves a proper prefix.
//!   Their forms stand above: in memory for tests (`io_memory`), and over the system's files and
//!   streams (`io_devices`).
//! - `Gate`: what workers pass before a piece of work. `OpenGate` lets all by.
#![tactic(auto)]

mod boxed;
mod fault;
mod gate;
mod rows;
mod sequence;
mod shelf;
mod sink;
mod text;

pub use boxed::Boxed;
pub use fault::{Failed, OutOfMemory};
pub use gate::{Gate, OpenGate};
pub use rows::{empty_rows, push_at};
pub use sequence::{Cells, Flags, Longs, Periods, PortSizes, Sequence, Sizes, Texts};
pub use shelf::{FetchFault, Shelf};
pub use sink::{PutFault, Sink, put_all};
pub use text::Text;
