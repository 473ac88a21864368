//! Verilog text of the subset, read into a module, or into the modules and instances of a design.
//!
//! `read` goes over the bytes once. Bytes become lexemes (`scan`, `turns`), and each lexeme takes the reader from
//! place to place (`steps`, `nets`, `operands`, `frames`), with the expressions that are begun on a stack of its own
//! (`places`). Its contract: an `Ok` has the module that the bytes spell (`found`, `few`), of which there is at most
//! one (`unique`); `Syntax` comes only where there is none (`refused`), with the line at which the bytes stop being
//! the beginning of a text (`line`). `read_design` goes over them likewise: the `designer` begins a reader behind each
//! `endmodule`, and takes the lexemes of instances itself.
//!
//! The definitions: what spells a module stands in `vl_ast`; `specs/Designs.antt` says what spells a design, and
//! `specs/Prefix.antt` which line a fault has. `specs/inner` has the plain reading, which the code is proved to give:
//! `Lexemes`, `Plain` and `Designs` over `Places`; `ReaderPlaces` and `DesignerFields` say which of its states the
//! reader and the designer are in.
#![tactic(auto)]

mod design;
mod designer;
mod fault;
mod frames;
mod laws;
mod nets;
mod numbers;
mod operands;
mod pieces;
mod places;
mod reader;
mod reading;
mod scan;
mod steps;
mod turns;

pub use design::Design;
pub use fault::VlSyntax;
pub use laws::{one_fault_line, reads_back, spelling_spells_alone, unique, unique_design};
pub use reading::{read, read_design};
