//! How wide the signals of a diagram are and of which types, by rounds in which every block takes its
//! own from those of the round before, and whether they keep the rules of dimensions and of types.
//!
//! `widths` works out the rounds of widths in waves (`linked`, `build`, `scanning`), looks at each block
//! once (`fitting`) and counts the elements of all ports (`elements`). `types` does the same for types
//! (`typed_round`, `typed_step`) with the types of a Gain's coefficients (`typed_param`), and looks at
//! each block once (`typed_fit`, `typed_rule`). The contracts cite the definitions of `dg_model`:
//! `widths_of`, `types_of` and `params_of` for the rounds, `KeepsDimensions`, `KeepsTypes`,
//! `BreaksDimension` and `BreaksType` for the rules.
#![tactic(auto)]

mod build;
mod dimensions;
mod elements;
mod fitting;
mod kinds;
mod linked;
mod rows;
mod scanning;
mod typed;
mod typed_fit;
mod typed_param;
mod typed_round;
mod typed_rule;
mod typed_step;

pub use dimensions::widths;
pub use typed::{BlockTypes, types};
