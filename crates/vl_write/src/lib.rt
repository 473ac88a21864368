//! Writes a module of the Verilog subset as text.
//!
//! `spelling_parts` gives `spelling` of the module, which `vl_ast` defines in `specs/Spelling.antt`, in parts that
//! are to stand one after another, and `write` as one text; it spells the module by `Spells` of
//! `specs/Grammar.antt`, where some text does. Of many items workers spell pieces, each worker a part
//! (`src/pieces.rt`): the text is the same whichever worker spelled which.
#![tactic(auto)]

mod attributes;
mod expressions;
mod items;
mod lists;
mod parts;
mod pieces;
mod ports;
mod writing;

pub use writing::{spelling_parts, write};
