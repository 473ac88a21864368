//! What a netlist keeps of another in whose place it stands.
//!
//! `specs/Refines` says it in one record; a pass over netlists is a function with that record as its
//! contract. `laws` says that passes one after another are a pass.
#![tactic(auto)]

mod laws;

pub use laws::{
    copies_show_same, drops_refine, redirects_refine, refinements_compose, refines_itself,
    repeats_show_same, represents_refine,
};
