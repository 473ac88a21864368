//! Samples: models of any length that a number makes, with their stimulus and plan, and what comes of
//! one on its way from a model to hardware.
//!
//! - `model_text`, `stimulus_text` and `plan_text`: the texts (`specs/ModelText`, `specs/Stimulus`), over the
//!   numbers of `specs/Numbers` and the kinds of `specs/Chain`.
//! - `Bench`: what replays a Verilog text. `summary` asks one, and tells in how many fields at hits
//!   it agrees with the response of the diagram (`specs/Summary`).
//! - Laws (`specs/Laws`): the model text stands for a tree, and no line of the plan's is bad.
#![tactic(auto)]

mod bench;
mod chain;
mod fields;
mod laws;
mod modeling;
mod numbers;
mod pushing;
mod stimulus;
mod summing;

pub use bench::{Bench, summary};
pub use chain::ChainKind;
pub use fields::equal_count;
pub use laws::{models_stand, plan_is_good};
pub use modeling::model_text;
pub use stimulus::{plan_text, stimulus_text};
pub use summing::{Made, summary_text};
