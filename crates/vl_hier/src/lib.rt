//! Designs: a module, the top, in which others stand, and the one module that they are together.
//!
//! `read` gives the design of a text, `write` the text of a design, and `flat` its one module: what the
//! instances hold stands in the top, behind their names. What `write` gives is read as the same design
//! (`design_reads_back`). The definitions are in `specs/`: `Linked` says when an instance is linked as it
//! must be, `Flat` what the flat module of a design is, `Fault` why there is none, and `Written` how a
//! design is written; the grammar of a design's text stands in `vl_read`. Names are looked up in trees
//! (`index`, `names`, `nets`), so the time doesn't grow with instances times nets or ports times links.
#![tactic(auto)]

mod copying;
mod flattening;
mod index;
mod items;
mod laws;
mod linking;
mod links;
mod names;
mod nets;
mod reading;
mod refusal;
mod tables;
mod unlinked;
mod writing;

pub use flattening::flat;
pub use laws::{design_reads_back, design_spelling_spells};
pub use reading::read;
pub use refusal::HierFault;
pub use vl_read::Design;
pub use writing::write;
