//! That a checked diagram has exactly one table of values, and what the simulator and the hardware
//! both cite of it.
//!
//! `specs/Laws.antt` says that for a diagram that keeps the rules exactly one table solves, for
//! every number of samples and every stimulus; `specs/Fit.antt` how its widths, lists and types fit.
//! `specs/State.antt` says what blocks keep from sample to sample, and `specs/Steps.antt` what a
//! sample does to it. No simulator is needed for any of these: the table is filled sample by sample,
//! and in a sample in the order of the blocks.
//!
//! `entries` names the entries of a table, and `layout` puts those of a sample in order, with what
//! finds them (`specs/Entries.antt`, `specs/Finding.antt`); `reading` says where the values come from
//! that a block reads. `roots` has the elements of the root ports (`specs/Roots.antt`), and `listing`
//! their blocks (`specs/Listing.antt`).
#![tactic(auto)]

mod entries;
mod laws;
mod layout;
mod listing;
mod reading;
mod roots;

pub use entries::{Place, Places};
pub use laws::{
    entries_stay, entry_is_one, kept_moves, operations_prepare, solved_is_in_range,
    some_table_solves, tables_are_one,
};
pub use layout::lay_out;
pub use listing::{input_blocks, output_blocks};
pub use reading::{
    Starts, input, look_up, period_of_input, type_of_input, width_of_input, width_of_output,
};
pub use roots::{Root, Roots, input_roots, output_roots};
