//! The top call of the product: words, files and two streams in, an exit status out.
//!
//! `run` says its end once (`ends`): it ends by an answer, with the answer's status, line, cause and
//! output (`specs/Caused.antt`), over what the call saw of the files and did to the streams
//! (`specs/Call.antt`). `due`, `complete` and `plain_complete` say what it owes where the shelf tells
//! what it holds (`specs/Outcome.antt`). What these cite: `specs/Command.antt` (the words), `specs/Cause.antt` (why an
//! answer comes), `specs/Answer.antt` and `specs/Messages.antt` (its status and line),
//! `specs/Output.antt` (the text that is written).
//!
//! A further command over files adds a case to `Command`, `asked_of`, `files_of`, `IsOutput` and `CanBeDone`; a
//! further answer adds one to `Answer`, `status_of`, `line_of`, `HasCause` and `HasWritten`.
//!
//! `replay` writes a response that is `IsReplayOf` (`specs/Replayed.antt` of `cmd_replay`) the two
//! texts, and `simulate` one that is `IsSimulationOf` (`specs/Simulated.antt`). `check` writes a text
//! that is `IsCheckOf` (`specs/CheckedText.antt`) the model and the plan, and `stream` one that is
//! `IsStreamedOf` (`specs/Streamed.antt` of `cmd_generate`) these. `sample` writes one that is
//! `IsSummaryOf` (`specs/Summarized.antt`) a number; `sample_with` does its work by a bench of the
//! caller's, and `TrueBench` of `cmd_replay` is that of `run`. `flatten` writes one that is `IsFlatTextOf`
//! (`specs/Flattened.antt`) a text of modules.
//!
//! The headline is `IsVerilogOf` in `specs/Generated.antt` of `cmd_generate`: the text spells a module
//! alone, and that module owes the design of the two texts nothing (`IsModuleOf` of `hw_module`,
//! `IsDesignOf` of `cmd_design`).
#![tactic(auto)]

mod answer;
mod check;
mod command;
mod explore;
mod fault;
mod fetch;
mod flatten;
mod parts;
mod response;
mod sample;
mod task;
mod top;

pub use sample::sample_with;
pub use top::run;
