//! MDL text, the model files that Simulink writes, read into a tree of sections and parameters.
//!
//! `read` goes over the bytes once, a line after another. Its contract: an `Ok` has the tree that the
//! bytes stand for (`found`), of which there is at most one (`unique`); `Syntax` comes only where
//! there is none (`refused`), with the line at which the bytes stop being the beginning of a text
//! (`line`).
//!
//! The definitions: `specs/Lines.antt` has the form of each line, `specs/Bytes.antt` and
//! `fx_text/specs/Strings.antt` what it is made of, `specs/Stands.antt` says which tree a text stands
//! for, and `specs/Prefix.antt` which line a fault has. `specs/inner/Plain.antt` is the plain reading of a
//! line at a time, which the code is proved to give.
#![tactic(auto)]

mod brackets;
mod fault;
mod kind;
mod reader;
mod reading;
mod said;
mod scan;
mod strings;
mod tree;

pub use fault::MdlFault;
pub use reading::{one_fault_line, read, unique};
pub use tree::{Item, Items, Tree, Value};
