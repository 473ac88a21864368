//! The Verilog subset: modules as data, and what they mean.
//!
//! The crate holds types, definitions, what a module and its ports say as attributes, what makes
//! expressions, items, ports and modules from their parts, and laws as functions that do nothing.
//! The definitions are in `specs/`, by subject: `Operators` (how they are written), `Spelling` (the
//! one written text of a module), `Tokens` and `Grammar` (which bytes spell a module), `Spellable`
//! (what some text spells), `Context` (length and sign of an expression), `Value` (its value),
//! `Nets` (what is declared and where names stand), `Runs` (the rows of a module), `Steps` (a row,
//! and an edge to the next), `Room` (what fits), `Conditions` (the six conditions), `Attributes`,
//! `Control` (ports that carry no numbers), `Windows` (which rows count, and what a name shows over
//! them), `Driven` (how a module is reset and driven), `Stalls` (rows that don't count), `Gates`
//! (registers that stand still), `Listing` (lists that grow at their end), `Multiplications`, `Layouts`
//! (a layout cut behind a token), `Drivers` (which item drives a name) and `Copies` (what the assignment
//! of a name gives).
#![tactic(auto)]

mod attributes;
mod designs;
mod expressions;
mod laws;
mod making;
mod modules;
mod operators;
mod words;

pub use attributes::{clocks_of, cycles_of, latency_of, lateness_of, period_of, step_of};
pub use designs::{Instance, Instances, Link, Links, Modules};
pub use expressions::{BinOp, Expr, Exprs, ShiftOp, Sized, UnOp};
pub use laws::{
    agreement, can_be_driven, counted_rows_run, counted_rows_show, gated_modules, gated_rows_run,
    layouts_part, meaning_by_layer, multiplications_join, name_is_copied, numbers_are_writable,
    one_driver, one_run, opened_modules, parts_run, rows_are_clocks, sound_modules_spell,
    spelling_spells, steps_run, tokens_spell,
};
pub use making::{
    Listing, Made, begin, binary, binary_of, both, choose, choose_of, concat, finish, in_box,
    named, put, put_assignment, put_bit_port, put_clocked, put_data_port, put_declaration,
    put_expression, put_register, some_condition, unary, whole_module,
};
pub use modules::{Attr, Attrs, ModItem, ModItems, Module, Port, Ports};
pub use words::{Bits128, mask_of};
