//! The six conditions on a module of the Verilog subset, tried in their order.
//!
//! `check` goes over a module once: `mentions` lists the places of names in its text, `names` numbers
//! them, `driving` tries the first two conditions, `ordering` finds an order of the assignments or a
//! cycle of them (`assigned`, `sorting`), `widths` and `shapes` try the fourth, `clocking` the fifth and
//! `attributes` the sixth. Its contract: an `Ok` has the names and the order of a module that breaks no
//! condition (`sound`, `scope`, `order`); a fault comes only where its condition is the first that is
//! broken, with its name or names (`fault`).
//!
//! The definitions: the conditions stand in `vl_ast`; `specs/` says what the faults mean (`Cause`), what
//! a scope tells of names (`Scope`), what an order is (`Ordering`) and what a sound expression's length
//! and sign are (`Shape`). `specs/inner` is cited by private contracts alone.
#![tactic(auto)]

mod assigned;
mod attributes;
mod checking;
mod clocking;
mod driving;
mod fault;
mod mentions;
mod names;
mod ordering;
mod scope;
mod shapes;
mod sorting;
mod widths;

pub use attributes::{carries, is_driven_input, is_number_output, is_stallable};
pub use checking::{Checked, check};
pub use fault::VlFault;
pub use mentions::{Declared, Kind};
pub use scope::Scope;
pub use shapes::{Shape, is_number, net, sound_shape};
