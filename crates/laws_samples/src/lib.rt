//! What is known of all samples: the columns of their diagrams.
#![tactic(auto)]

mod laws;

pub use laws::diagrams_have_columns;
