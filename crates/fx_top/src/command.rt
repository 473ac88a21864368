ghost use Rattle.std.specs.Prelude.{◌≡◌, ◌∷◌, [], ℕ, IfSome, List, map, string_bytes};
ghost use Rattle.std.specs.Option.{option_map};
ghost use Rattle.fx_top.specs.Command.{asked_of, number_of as number_of_word};
ghost use Rattle.fx_top.specs.inner.FileCommands.{HasRange, named, over_files};
ghost use Rattle.fx_top.specs.inner.Tasks.{IsTask};

use crate::task::Task;
use cmd_explore::{plain_number, read_range};
use mdl_values::value_beside;

/// The greatest number of a sample (own).
const GREATEST_SAMPLE: u64 = 5000;

/// The tasks that hang on no range, by their words (own).
const TASKS: &'static [(&'static str, Task)] = &[
    ("generate", Task::Generate),
    ("replay", Task::Replay),
    ("simulate", Task::Simulate),
    ("check", Task::Check),
    ("stream", Task::Stream),
];

/// What the words of a call ask for.
#[derive(Clone, Copy)]
pub enum Command<'a> {
    /// To do a task over a model or a Verilog text, and over what the second word names beside it.
    OverFiles {
        task: Task,
        first: &'a str,
        second: &'a str,
    },
    /// To write the flat module of the design in this file.
    Flatten {
        file: &'a str,
    },
    /// To write the summary of the sample of this number.
    Sample {
        number: u32,
    },
}

impl<'a> Command<'a> {
    /// The command that the words name, where they have a listed shape.
    pub fn of_words(words: &'a [String]) -> Option<Command<'a>>
        ensures is { option_map named result ≡ asked_of (map string_bytes words.now) }
        ensures range { IfSome result HasRange }
    {
        let Some((verb, more)) = words.split_first() else {
            return None;
        };
        let Some((first, others)) = more.split_first() else {
            return None;
        };
        let Some((second, rest)) = others.split_first() else {
            return over_one(verb.as_str(), first.as_str());
        };
        if !rest.is_empty() {
            return None;
        }
        over_two(verb.as_str(), first.as_str(), second.as_str())
    }
}

/// The command that a word names over two others, where it names one.
fn over_two<'a>(verb: &str, first: &'a str, second: &'a str) -> Option<Command<'a>>
    ensures is { option_map named result ≡ asked_of (verb.now ∷ first.now ∷ second.now ∷ []) }
    ensures range { IfSome result HasRange }
{
    match task_of(verb, second) {
        Some(task) => Some(Command::OverFiles {
            task,
            first,
            second,
        }),
        None => None,
    }
}

/// The task that a word names, where it names one, by the second of the words behind it.
fn task_of(verb: &str, second: &str) -> Option<Task>
    ensures is { (first : List ℕ) → option_map (over_files first second.now) result
        ≡ asked_of (verb.now ∷ first ∷ second.now ∷ []) }
    ensures range { IfSome result IsTask }
{
    if verb == "explore" {
        return match read_range(second.as_bytes()) {
            Some(range) => Some(Task::Explore { range }),
            None => None,
        };
    }
    let word = verb.as_bytes();
    value_beside(TASKS, word)
}

/// The command that a word names over one other, where it names one.
fn over_one<'a>(verb: &str, word: &'a str) -> Option<Command<'a>>
    ensures is { option_map named result ≡ asked_of (verb.now ∷ word.now ∷ []) }
    ensures range { IfSome result HasRange }
{
    if verb == "flatten" {
        return Some(Command::Flatten { file: word });
    }
    if verb != "sample" {
        return None;
    }
    match number_of(word.as_bytes()) {
        Some(number) => Some(Command::Sample { number }),
        None => None,
    }
}

/// The number of a sample that a word names: 1 to 5000, without zeros in front.
fn number_of(word: &[u8]) -> Option<u32>
    ensures { result ≡ number_of_word word.now }
{
    let Some(number) = plain_number(word) else {
        return None;
    };
    if 1 <= number && number <= GREATEST_SAMPLE {
        Some(number as u32)
    } else {
        None
    }
}
