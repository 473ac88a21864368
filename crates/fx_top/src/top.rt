ghost use Rattle.std.specs.Prelude.{◌≤◌, map, string_bytes};
ghost use Rattle.cmd_replay.specs.Benched.{IsTold};
ghost use Rattle.cmd_sample.specs.Numbers.{greatest_sample};
ghost use Rattle.fx_top.specs.Call.{files_in, stream_in};
ghost use Rattle.fx_top.specs.Caused.{IsCarriedOut, Ends};
ghost use Rattle.fx_top.specs.Command.{asked_of};
ghost use Rattle.fx_top.specs.Flattened.{IfFlatten, IsCompleteFlat, IsDueFlat};
ghost use Rattle.fx_top.specs.Outcome.{IfCommand, IsDue, IsComplete, IsPlainComplete};
ghost use Rattle.fx_top.specs.Sampled.{HasSampleCause, HasSampleWritten, IfSample, IsCompleteSample, IsDueSample};
ghost use Rattle.fx_top.specs.Summarized.{IsSummed};

use crate::answer::Answer;
use crate::command::Command;
use crate::flatten::flatten;
use crate::sample::sample;
use crate::task::over_files;
use cmd_replay::TrueBench;
use fx_io::{Shelf, Sink};
use std::alloc::Global;
use std::thread::Threads;

/// Does what the words after the program's name ask for, and gives the exit status (own).
///
/// `check MODEL PLAN` writes what is worked out of a model by a plan, which the word `-` names where it
/// is the empty one. `simulate MODEL STIM` writes the response of a model's diagram to a stimulus.
/// `generate MODEL PLAN` writes the Verilog text of a model under a plan, spelled by workers of `rt`.
/// `replay VERILOG STIM` writes what the module of a Verilog text of the subset shows under a stimulus.
/// `explore MODEL RANGE` writes what each plan of a range is worth on a model, found by workers of
/// `rt`. `flatten VERILOG` writes the module that a text of several modules is, with what its instances
/// hold in place of them. `sample NUMBER` writes the summary of the sample of this number. `stream MODEL PLAN` writes the
/// Verilog text of a model under a plan in a module with valid and ready on both sides. The files come
/// from `shelf`, the text goes to `out`, and each status but 0 puts one line to `err`, whose failure
/// changes nothing.
pub fn run<R: Threads + Sync, S: Shelf, K: Sink, E: Sink>(
    rt: &R,
    alloc: Global,
    words: &[String],
    shelf: &mut S,
    out: &mut K,
    err: &mut E,
) -> u8
    ensures ends { Ends (map string_bytes words.now)
        (files_in S.held S.steady S.faults S.overlong shelf.old shelf.new)
        (stream_in K.taken K.faults out.old out.new)
        (stream_in E.taken E.faults err.old err.new) result }
    ensures due { IfCommand (map string_bytes words.now) (λ command. IsDue
        (files_in S.held S.steady S.faults S.overlong shelf.old shelf.new) command result) }
    ensures complete { IfCommand (map string_bytes words.now) (λ command. IsComplete
        (files_in S.held S.steady S.faults S.overlong shelf.old shelf.new)
        (stream_in K.taken K.faults out.old out.new) command result) }
    ensures flat_due { IfFlatten (map string_bytes words.now) (λ file. IsDueFlat
        (files_in S.held S.steady S.faults S.overlong shelf.old shelf.new) file result) }
    ensures flat_complete { IfFlatten (map string_bytes words.now) (λ file. IsCompleteFlat
        (files_in S.held S.steady S.faults S.overlong shelf.old shelf.new) file
        (stream_in K.taken K.faults out.old out.new) result) }
    ensures plain_complete { IfCommand (map string_bytes words.now) (λ command. IsPlainComplete
        (files_in S.held S.steady S.faults S.overlong shelf.old shelf.new)
        (stream_in K.taken K.faults out.old out.new) command result) }
    ensures sample_due { IfSample (map string_bytes words.now) (λ number.
        IsDueSample number result) }
    ensures sample_complete { IfSample (map string_bytes words.now) (λ number.
        IsCompleteSample (stream_in K.taken K.faults out.old out.new) number result) }
{
    mdl_text::unique();
    vl_read::unique();
    vl_read::unique_design();
    cmd_generate::plain_plans_make_designs();
    let answer = carry_out(rt, alloc, words, shelf, out);
    answer.report(err);
    let status = answer.status();
    drop(answer);
    status
}

fn carry_out<'a, R: Threads + Sync, S: Shelf, K: Sink>(
    rt: &R,
    alloc: Global,
    words: &'a [String],
    shelf: &mut S,
    out: &mut K,
) -> Answer<'a>
    ensures { IsCarriedOut
        (files_in S.held S.steady S.faults S.overlong shelf.old shelf.new)
        (stream_in K.taken K.faults out.old out.new)
        (asked_of (map string_bytes words.now)) result }
{
    match Command::of_words(words) {
        None => Answer::Usage,
        Some(
            Command::OverFiles {
                task,
                first,
                second,
            },
        ) => over_files(rt, alloc, task, first, second, shelf, out),
        Some(Command::Flatten { file }) => flatten(rt, alloc, file, shelf, out),
        Some(Command::Sample { number }) => replayed_sample(rt, alloc, number, out),
    }
}

/// Writes the summary of a sample, by the bench that replays.
fn replayed_sample<'a, R: Threads + Sync, K: Sink>(
    rt: &R,
    alloc: Global,
    number: u32,
    out: &mut K,
) -> Answer<'a>
    requires { number ≤ greatest_sample }
    ensures cause { HasSampleCause number result }
    ensures written { HasSampleWritten (IsSummed IsTold number)
        (stream_in K.taken K.faults out.old out.new) result }
{
    let mut bench = TrueBench::new(alloc);
    sample(rt, alloc, number, &mut bench, out)
}
