ghost use Rattle.std.specs.Prelude.{◌≡◌};
ghost use Rattle.fx_top.specs.Call.{files_in, stream_in};
ghost use Rattle.fx_top.specs.Caused.{HasCause, HasWritten};
ghost use Rattle.fx_top.specs.inner.Tasks.{IsDone, IsFaultOf, IsTask, Makes, command_of, table_word, word_of};

use crate::answer::Answer;
use crate::check::check;
use crate::explore::explore;
use crate::fault::{Done, answer_of};
use crate::fetch::fetch_both;
use crate::parts::put_design;
use crate::response::{replay, simulate};
use cmd_generate::{streamed_of, verilog_of};
use fx_io::{Shelf, Sink};
use hw_explore::Range;
use std::alloc::Global;
use std::thread::Threads;

/// What a command writes of its files.
#[derive(Clone, Copy)]
pub enum Task {
    /// The Verilog text of a model under a plan.
    Generate,
    /// The response of a Verilog text to a stimulus.
    Replay,
    /// The response of a model's diagram to a stimulus.
    Simulate,
    /// What each plan of a range is worth on a model.
    Explore { range: Range },
    /// What is worked out of a model by a plan.
    Check,
    /// The Verilog text of a model under a plan, with valid and ready on both sides.
    Stream,
}

impl Task {
    /// The file of the plan or the stimulus that a word names, where there is one: `-` names the empty
    /// plan, and a range of plans stands in no file.
    fn table<'a>(self, word: &'a str) -> Option<&'a str>
        ensures { word_of result ≡ table_word self word.now }
    {
        match self {
            Task::Replay | Task::Simulate => Some(word),
            Task::Explore { .. } => None,
            Task::Generate | Task::Check | Task::Stream => {
                if word == "-" { None } else { Some(word) }
            }
        }
    }
}

/// Puts what a task makes of two texts.
fn put_output<R: Threads + Sync, K: Sink>(
    rt: &R,
    alloc: Global,
    task: Task,
    first: &[u8],
    second: &[u8],
    out: &mut K,
) -> Done
    requires { IsTask task }
    ensures { IsDone (Makes task first.now second.now) (IsFaultOf task first.now second.now)
        (stream_in K.taken K.faults out.old out.new) result }
{
    match task {
        Task::Generate => put_design(rt, alloc, verilog_of(alloc, first, second), out),
        Task::Replay => replay(alloc, first, second, out),
        Task::Simulate => simulate(alloc, first, second, out),
        Task::Explore { range } => explore(rt, alloc, first, range, out),
        Task::Check => check(alloc, first, second, out),
        Task::Stream => put_design(rt, alloc, streamed_of(alloc, first, second), out),
    }
}

/// Does a task over the files that two words name.
pub fn over_files<'a, R: Threads + Sync, S: Shelf, K: Sink>(
    rt: &R,
    alloc: Global,
    task: Task,
    first: &'a str,
    second: &'a str,
    shelf: &mut S,
    out: &mut K,
) -> Answer<'a>
    requires { IsTask task }
    ensures cause { HasCause (files_in S.held S.steady S.faults S.overlong shelf.old shelf.new)
        (command_of task first.now second.now) result }
    ensures written { HasWritten (files_in S.held S.steady S.faults S.overlong shelf.old shelf.new)
        (stream_in K.taken K.faults out.old out.new)
        (command_of task first.now second.now) result }
{
    let texts = match fetch_both(alloc, first, task.table(second), shelf) {
        Ok(texts) => texts,
        Err(answer) => return answer,
    };
    let done = put_output(
        rt,
        alloc,
        task,
        texts.first.bytes(),
        texts.second.bytes(),
        out,
    );
    drop(texts);
    answer_of(first, second, done)
}
