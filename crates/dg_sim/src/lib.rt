//! The simulator: a checked diagram as a program that goes through the samples of its one table.
//!
//! `Sim::new` makes a program of cells, one for each entry that a sample has, in the order of the
//! blocks (`specs/Program.antt`), and `Sim::step` goes through it. `specs/Sim.antt` says when a
//! program simulates a diagram and what it means that a simulator stands at a sample of a table.
//! The entries, where values come from and the root elements are those of `dg_tables`. The steps that
//! make the program are `rules` (with `columns`, `handing`, `joining`, `working` and `enabling`),
//! `memories` and `building`, `turn` has the entry that they are at, and `values` the stored entries of
//! list parameters; `readying` prepares the operations; the steps of a sample are `giving` and `sweeping`.
#![tactic(auto)]

mod building;
mod columns;
mod enabling;
mod giving;
mod handing;
mod joining;
mod memories;
mod past;
mod program;
mod readying;
mod ring;
mod rules;
mod sim;
mod sweeping;
mod turn;
mod values;
mod working;

pub use past::Past;
pub use program::{Cell, Cells, Memories, Memory, Program, Rule, Work};
pub use ring::Ring;
pub use sim::Sim;
