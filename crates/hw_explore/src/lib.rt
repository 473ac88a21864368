//! All plans of a range, compared by parallel workers.
//!
//! `explore` finds of each pair of clocks and multipliers how many multiplications the module has and
//! how late it is, or the first rule that the plan breaks (`specs/Candidates`), and which plan is the
//! least (`specs/Findings`). What a worker does is in no clause: the answer is that of one thread.
#![tactic(auto)]

mod exploring;
mod finding;
mod findings;
mod judging;
mod plain;
mod range;
mod rank;
mod timed;

pub use exploring::explore;
pub use finding::{Finding, Judged};
pub use findings::{FindingRows, Findings};
pub use range::{Ends, Range};
