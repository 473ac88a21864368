//! What the programs of tests read from standard input: texts, and rows over them.
//!
//! A line `text NAME` begins a text, and a line `end` ends it. Any other line is a row: words, and
//! perhaps parts, each behind a back quote. In a part `\n`, `\t`, `\r`, `\\` and `\xNN` stand for a
//! byte. The first word of a row is its command, and the second the name of its text, in which each
//! first part stands as the second, the first part of the next two as the other, and so on. With
//! the name `=` the text is the first part itself.
#![tactic(auto)]

mod cuts;
mod escapes;
mod lines;
mod row;
mod texts;

pub use cuts::{Reads, put_bad_line, put_cuts};
pub use escapes::{part_bytes, put_escaped};
pub use lines::{Answers, Line, answer_lines, put_debug, write_result};
pub use row::{Row, table_value};
pub use texts::Texts;
