//! Answers calls of the top over files in memory, so that the gate runs whole commands as both
//! compilers build them.
//!
//! Standard input has texts and lines (`tests_rows` says how they are written):
//!
//! | line | what it does |
//! |---|---|
//! | `file TEXT NAME` | a text, with the parts of the line exchanged, is the file of that name from here on |
//! | `zeros = NAME COUNT` | so many bytes 0 are |
//! | `fetch = N`, `put = N` | the fetch, or the put to standard output, of this number fails at the next call |
//! | `piece = N` | at the next call standard output takes at most so many bytes a put |
//! | `stuck =` | at the next call standard output takes none, and standard error fails |
//! | `run WORD ..` | the call of these words |
//! | `bench:BYTES` | `sample 1`, by a bench that tells these bytes |
//! | `ends WORD ..` | the calls of these words in which a put to standard output fails, and in which one takes nothing, another at each until all is written |
//!
//! | line | what it prints |
//! |---|---|
//! | `sample = COUNT`, `sample_plan =` | the model and the stimulus of a sample of so many blocks, and the plan of all |
//! | `summary =` | the summary where a bench tells the text |
//! | `explored TEXT`, `explored_few TEXT` | how many plans of the model were explored, while the worker of the first and that of the last waited for each other at a gate, and how many of these two met |
//! | `met = COUNT` | how many workers met while a module of so many wires was written |
//! | `wires = COUNT` | how many times of twenty such a module was written, whole and in parts, as the text that is found line by line |
//!
//! One thread alone, in whichever order it goes, runs out of turns at a gate. No contract says that
//! two threads run, nor which text is the expected one.
//!
//! Each line that calls is printed as it stands, and then the status, what standard error took, and what
//! standard output took with a bar behind it, where it took any.
//!
//! What the gate compares this with was worked out by hand, and the samples are those of a script that
//! makes the same.
#![tactic(auto)]

mod calls;
mod cases;
mod ends;
mod fixed;
mod meeting;
mod plans;
mod samples;
mod stuck;
mod wires;

use crate::cases::Case;
use anyhow::Result;
use tests_rows::answer_lines;

fn main(rt: HostRuntime) -> Result<()> {
    let mut case = Case::new(rt.alloc());
    answer_lines(&rt, rt.alloc(), &mut case)
}
