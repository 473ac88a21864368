//! From the bytes of a model to its checked diagram.
//!
//! `accept` goes the whole way: text, tree, blocks and lines, flat diagram, and the rules of models in
//! their order. `specs/Model.antt` says which diagram a model has (`IsModelOf`) and when it has none:
//! its bytes are no MDL text (`IsNotMdl`), or its tree breaks a rule (`IsBrokenModel`). `rule_text` writes
//! the line of a broken rule (`rule_line` of `specs/RuleLine.antt`).
#![tactic(auto)]

mod accepting;
mod laws;
mod rule_lines;

pub use accepting::{ModelFault, accept};
pub use laws::{diagram_is_one, model_is_there, verdict_is_one};
pub use rule_lines::{plain_front, push_path, push_shown, quoted_byte, rule_text};
