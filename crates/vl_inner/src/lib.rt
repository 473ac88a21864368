//! A module that stands in another: its items over the names that its own have there.
//!
//! `put_renamed` puts an item so, or with the names that it has. The definitions: `specs/Names.antt` says
//! what a name is called there, and `Renamed` what an item is over other names. The laws of
//! `specs/Laws.antt` hold of any other names: an expression means what it means over its own, reads the
//! other names, is of the grammar where it was, and an item has as many multiplications. Over its own
//! names an item is itself.
#![tactic(auto)]

mod laws;
mod names;
mod renaming;

pub use laws::{
    renamed_is_of_grammar, renamed_is_same, renamed_means, renamed_multiplies, renamed_reads,
};
pub use names::{Naming, inner_name, is_shared, name_by};
pub use renaming::put_renamed;
