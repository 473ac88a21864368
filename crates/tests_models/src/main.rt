//! Takes model texts through the rooms of the house one by one, and values, plans and stimuli
//! through their readers, so that the gate compares what each gives.
//!
//! Standard input has texts and rows (`tests_rows` says how they are written). Of its text a row
//! prints:
//!
//! | row | what is printed |
//! |---|---|
//! | `tree NAME` | each item: a dot for each section that holds it, its name, a sign of its kind, its content and a bar; or the line at which the text is none |
//! | `syntax NAME` | that line, 0 where the text is one |
//! | `cuts NAME` | that line of each of the text's beginnings, the shortest first |
//! | `value = KIND`, `value = number LOW HIGH` | the value of a parameter (`values.rt` has the kinds) |
//! | `build NAME` | `kept`, or the rule of structure, library or parameter that is broken |
//! | `many = COUNT` | the same of a model of so many blocks |
//! | `nested NAME` | each block that is built, and each line |
//! | `flat NAME` | each block of the flat diagram with its enable, and each edge |
//! | `widths NAME`, `types NAME`, `rates NAME`, `order NAME` | the widths, types, periods and order of the diagram, or the rule that is broken |
//! | `accept NAME` | the number of blocks, or the first rule that is broken |
//! | `plan =` | the plan of a text, or its bad line |
//! | `stages NAME` | how many registers the last plan sets behind each block of a model |
//! | `rows = COLUMNS OUTPUTS` | the cells of a stimulus, or its bad line |
//!
//! What the gate compares this with was worked out by hand.
#![tactic(auto)]

mod diagrams;
mod nested;
mod tables;
mod told;
mod trees;
mod values;

use crate::diagrams::Asked;
use crate::trees::Mdl;
use anyhow::Result;
use std::alloc::Global;
use std::io::Write;
use std::thread::Threads;
use tests_rows::{Answers, Line, Row, answer_lines, put_cuts, table_value};

/// The last plan.
#[derive(Drop)]
struct Plan {
    text: Vec<u8>,
}

fn main(rt: HostRuntime) -> Result<()> {
    let mut plan = Plan {
        text: Vec::new(rt.alloc()),
    };
    answer_lines(&rt, rt.alloc(), &mut plan)
}

impl Answers for Plan {
    fn take<R: Threads + Sync, W: Write>(&mut self, line: &Line<'_, R>, out: &mut W) -> Result<()> {
        answer(line.alloc, &mut line.row()?, &mut self.text, out)
    }
}

/// What a row asks for.
#[derive(Clone, Copy)]
enum Command {
    Tree,
    Syntax,
    Cuts,
    Many,
    Plan,
    Stages,
    Rows,
    Accept,
    Value,
    Model(Asked),
}

const COMMANDS: &[(&str, Command)] = &[
    ("tree", Command::Tree),
    ("syntax", Command::Syntax),
    ("cuts", Command::Cuts),
    ("build", Command::Model(Asked::Build)),
    ("nested", Command::Model(Asked::Nested)),
    ("flat", Command::Model(Asked::Flat)),
    ("widths", Command::Model(Asked::Widths)),
    ("types", Command::Model(Asked::Types)),
    ("rates", Command::Model(Asked::Rates)),
    ("order", Command::Model(Asked::Order)),
    ("many", Command::Many),
    ("plan", Command::Plan),
    ("stages", Command::Stages),
    ("rows", Command::Rows),
    ("accept", Command::Accept),
    ("value", Command::Value),
];

/// Answers a row, and keeps its text where this is a plan.
fn answer<W: Write>(
    alloc: Global,
    row: &mut Row<'_>,
    plan: &mut Vec<u8>,
    out: &mut W,
) -> Result<()> {
    let text = row.text.as_slice();
    match table_value(row.command, COMMANDS)? {
        Command::Tree => trees::tree(alloc, text, out),
        Command::Syntax => put_cuts::<Mdl, W>(alloc, text, text.len(), out),
        Command::Cuts => put_cuts::<Mdl, W>(alloc, text, 0, out),
        Command::Model(asked) => diagrams::model(alloc, asked, text, out),
        Command::Many => diagrams::many(alloc, row, out),
        Command::Plan => tables::plan(alloc, text, plan, out),
        Command::Stages => tables::stages(alloc, text, plan.as_slice(), out),
        Command::Rows => tables::rows(alloc, row, out),
        Command::Accept => tables::put_verdict(alloc, text, out),
        Command::Value => values::value(alloc, row, out),
    }
}
