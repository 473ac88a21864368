//! The texts beside a model: the stimulus and the response of a run, and the plan of its hardware.
//!
//! `read_rows` gives the rows that a stimulus stands for (`IsRows`), or its first bad line with the
//! first cause there (`stimulus_fault`). `read_plan` gives the plan that a text says (`IsPlan`),
//! which is in range, or its first bad line (`IsPlanFault`). `RowText::line` writes one line of a
//! response (`response_line`). The definitions are in `specs/`: `Fields` and `Whole` on the parts
//! of a line, `PlanLines` on the forms that a line of a plan may have, `Stimulus`, `Response` and
//! `Plan` on the three texts. `specs/inner` has the plain reading of a plan, which private
//! contracts cite.
#![tactic(auto)]

mod cell;
mod cut;
mod digits;
mod draft;
mod entry;
mod field;
mod number;
mod numeral;
mod plan;
mod row_text;
mod rows;
mod table;

pub use plan::read_plan;
pub use row_text::RowText;
pub use rows::read_rows;
pub use table::{Column, Columns, Rows, TableCause, TableFault};
