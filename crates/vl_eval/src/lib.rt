//! The Verilog machine: a module that breaks no condition, row after row of its run.
//!
//! `Machine::new` has the module checked (`vl_check`) and makes a plan of it: each assignment and what
//! each register takes become operations over places of values (`plan`, `assigning`, `building`,
//! `leaves`, `ops`). Those whose numbers have at most 64 bits are held as steps alone, which are less
//! than half as long, and whose sums and products are of 64 bits (`code`, `steps`, `sweeping`).
//! Widths, signs and contexts are worked out then (`contexts`, `operators`). If the operations aren't too
//! many, those that do what an earlier one does are left out (`merging`), and the others are sorted by
//! level and kind (`leveling`, `arranging`), so that the jump on the kind of an operation is foreseen. At
//! run time no name is looked up: `Machine::edge` captures what the registers take, puts the inputs in and
//! works out all operations but constants in one sweep (`moving`). Where the operations aren't few, it is
//! kept which of them read a place (`readers`), those that read one that changes are marked (`marks`), and
//! these alone are worked out (`sparing`), unless much changes (`watching`). The machine's contract: its
//! row is first the first row of the module with all registers and inputs 0, and each edge leads from a
//! row to the next (`row`); a fault comes only where its condition is the first that is broken (`fault`). A `Snapshot` keeps the values of one row, and tells whether the machine has
//! come back to them.
//!
//! The definitions: rows and edges stand in `vl_ast`; `specs/` says what row a machine is in
//! (`Machine`) and which inputs an edge is given (`EdgeBits`). `specs/inner` is cited by private contracts
//! alone: what an operation gives (`Ops`, `Steps`, `OperatorSteps`), what a place shows of an expression (`PlaceBits`,
//! `Contexts`, `Site`), of an assignment and a register (`Assigns`), and what a plan is
//! (`PlanOperations`, `Order`, `Merge`, `Edges`, `Reading`, `Moves`).
#![tactic(auto)]

mod adding;
mod arranging;
mod assigning;
mod building;
mod code;
mod contexts;
mod leaves;
mod leveling;
mod machine;
mod marks;
mod merging;
mod moving;
mod operators;
mod ops;
mod plan;
mod readers;
mod site;
mod sparing;
mod steps;
mod sweeping;
mod watching;

pub use machine::{Machine, Snapshot};
