//! In which slots of their periods operations stand, and at which multipliers.
//!
//! Operations come with the numbers of their kinds and periods and with their levels. Those of one
//! kind and level are served one after another, by as many multipliers at once as there may be, and
//! the levels of a period follow one another (`Slots`). `slots_of` finds each operation's slot and
//! multiplier and where levels begin (`Bases`), or the first period that has too few slots. `Tally`
//! keeps what is counted by level.
#![tactic(auto)]

mod bases;
mod firsts;
mod laying;
mod operation;
mod placing;
mod slots;
mod tally;
mod turns;
mod widths;

pub use bases::Bases;
pub use operation::{Operation, Span};
pub use slots::{SlotFault, Slots, slots_of};
pub use tally::total;
