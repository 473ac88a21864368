//! A module with valid and ready on both sides, round a module of samples.
//!
//! `wrap` gives `fx_stream`, which takes a sample of all inputs in a row in which `in_valid` and
//! `in_ready` are 1, and hands over a sample of all outputs in a row in which `out_valid` and
//! `out_ready` are 1. The module round which it stands, the core, is in it item by item: each of its
//! names but `clk` and `reset` is there with `fx_core_` in front, and its ports are wires.
//!
//! | beside the core's | what it is |
//! |---|---|
//! | `fx_phase` | which clock of a sample it is, from 0 to one below `fx_cycles` |
//! | `fx_wait` | how many whole samples must still pass before the outputs are those of the first |
//! | `fx_begin`, `fx_end` | a sample's first clock, and its last |
//! | `fx_due` | the outputs of a sample stand: it is a last clock, and nothing is left to wait for |
//! | `fx_fed` | it isn't a first clock, or `in_valid` is 1 |
//! | `fx_open` | no outputs are due, or `out_ready` is 1 |
//! | `fx_core_clk_enable` | the row moves: `fx_fed` and `fx_open`. Else all registers stand still |
//! | `fx_held_NAME` | what an input showed in the first clock of the sample, for its later clocks |
//! | `fx_late_K_NAME` | what an output showed in the last clock K samples ago |
//!
//! `in_ready` is `fx_begin` and `fx_open`, `out_valid` is `fx_due` and `fx_fed`. An output that comes
//! by whole samples earlier than the latest is shown from its last `fx_late`.
//!
//! The contract's definitions are in `specs/`: `Names` (the ports' names), `Header` (name, attribute
//! and ports), `Pace` (the clocks of a sample, and how late an output is), `Handshake` (when the four
//! signals are 1), `Transfers` (the rows that hand over a sample) and `Carried` (which bits they
//! show). `specs/inner` has the module as a plain function, which private contracts cite.
#![tactic(auto)]

mod columns;
mod control;
mod expressions;
mod header;
mod names;
mod pace;
mod registers;
mod renaming;
mod wrapping;

pub use wrapping::wrap;
