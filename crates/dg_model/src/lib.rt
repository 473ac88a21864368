//! The model of a block diagram: its parts, its meaning as equations over samples, and the plan that
//! says how its hardware is to be built. Each type here is plain data that the layers above share.
//!
//! The crate's contract is its definitions, in `specs/`. `Signals`, `Hits` and `Wires` have the words:
//! functions of a place and a moment, and what drives an input. `Operation` says what an elementwise
//! operation gives, `Types` and `GainParam` which types a block's row names, `Equation` what each kind
//! of block gives at a hit, and `Solves` which table of values is the meaning of a diagram. `Library`
//! has one row for each kind of block, with the columns of `KindRow`: what it may carry, and how its
//! widths, its type and its period come from its inputs; the code reads them by `Kind::row` and what
//! stands in `lent`. `Wired` says which diagrams are well formed, and `Sound` which nested ones.
//! `RootElements` and `LatencyEdges` number what files, ports and latencies are told by, and `Instant`
//! says which values a block needs in its own sample. `Checked` is a diagram that keeps the rules, with
//! what propagation gives its blocks, and `RuleTable` says how each rule is told.
#![tactic(auto)]

mod checked;
mod diagram;
mod fault;
mod gain_param;
mod kind;
mod laws;
mod lent;
mod naming;
mod nested;
mod op;
mod path;
mod plan;
mod port_widths;
mod propagated;
mod rates;
mod resolved;
mod row;
mod rule;
mod sums;

pub use checked::Checked;
pub use diagram::{Block, Blocks, Diagram, Edge, Edges, PeriodSpec, discard};
pub use fault::{CheckFault, RuleFault, Shown};
pub use gain_param::param_type_is_one;
pub use kind::{Criterion, Decimals, Gate, Kind, Relation};
pub use laws::{columns_are_a_stimulus, edges_stand_by_port, root_elements_are_listed};
pub use lent::{FullRule, Shape};
pub use naming::put_escaped;
pub use nested::{Nested, NestedBlock, NestedBlocks, NestedLine, NestedLines, Part, Target};
pub use op::{Op, OpCall, accumulator, without_frac};
pub use path::{Path, SystemPath};
pub use plan::{Pipeline, Pipelines, Plan};
pub use port_widths::PortWidths;
pub use propagated::{FxTypes, Propagated};
pub use rates::is_slow_to_fast;
pub use resolved::Resolved;
pub use row::{Asking, Inherited, OwnType, Reading, Role, Row, Standing};
pub use rule::Rule;
pub use sums::sum_type;
