//! The blocks and lines of a tree, and the rules of structure, library and parameter.
//!
//! `specs/Sections.antt` and `specs/Roles.antt` say which sections count, `specs/Lookup.antt` where a
//! parameter's value is found, `specs/Settings.antt` what it says, `specs/Parts.antt` what a block
//! becomes, `specs/Rules.antt` when a rule is broken and how that is told, and `specs/Nested.antt`
//! which blocks and lines a tree has, `specs/Expanded.antt` those in which each filter is taken apart,
//! and `specs/Filters.antt` where these stand. `library.rt` and `specs/Library.antt` are the one table
//! of block types.
#![tactic(auto)]

mod blocks;
mod building;
mod expanding;
mod extents;
mod known;
mod laws;
mod layout;
mod library;
mod lines;
mod list_readers;
mod lookup;
mod making;
mod names;
mod parts;
mod paths;
mod plain_readers;
mod reading;
mod roles;
mod settings;
mod structure;
mod type_names;

pub use building::{build, discard};
pub use laws::{fault_is_one, filters_stand, nested_is_not_broken, nested_is_one, nested_is_there};
