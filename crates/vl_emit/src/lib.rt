//! Netlists as modules of the Verilog subset.
//!
//! `emit` gives a netlist's module: a wire or a register for each net, named by its label or its
//! number, and a port for each of its ports. `specs/Emittable` says what it asks of a netlist
//! beside that it can be run. `specs/Header`, `Waves`, `Products`, `Reads` and `Registers` say what
//! the module is: its header, the rows that its names show, its multiplications and the names that
//! they are assigned to, what its items read, and its registers. `specs/Items` and `Labelled` say
//! which items there are, and what becomes of labels. It breaks none of the conditions of `vl_ast`.
#![tactic(auto)]

mod conditions;
mod driving;
mod emission;
mod header;
mod items;
mod operands;
mod operators;
mod source;

pub use emission::emit;
