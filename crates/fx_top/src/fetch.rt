ghost use Rattle.std.specs.Prelude.{◌≡◌, ◌≤◌, IfOk, IfErr};
ghost use Rattle.fx_io.specs.Shelf.{Fetched};
ghost use Rattle.fx_top.specs.Call.{file_limit, files_in};
ghost use Rattle.fx_top.specs.Output.{IsPlanText};
ghost use Rattle.fx_top.specs.inner.Fetch.{IsFetchAnswer, IsPairAnswer};
ghost use Rattle.fx_top.specs.inner.Tasks.{word_of};

use crate::answer::Answer;
use fx_io::{FetchFault, Shelf, Text};
use std::alloc::Global;

/// How many bytes a file has at most.
const FILE_LIMIT: u64 = 16_777_216;

/// What is fetched of a command's two files (own).
#[derive(Drop)]
pub struct Texts {
    /// The bytes of the model, or of the Verilog text.
    pub first: Text,
    /// The bytes of the plan, of which the empty one has none, or of the stimulus, or none.
    pub second: Text,
}

/// Fetches a file, or answers why it can't be had.
pub fn fetch_file<'a, S: Shelf>(
    alloc: Global,
    file: &'a str,
    shelf: &mut S,
) -> Result<Text, Answer<'a>>
    ensures found { IfOk result (λ bytes. Fetched (S.held shelf.old file.now) file_limit bytes) }
    ensures refused { IfErr result (λ answer. IsFetchAnswer
        (files_in S.held S.steady S.faults S.overlong shelf.old shelf.new) file.now answer) }
    ensures kept { S.held shelf.new ≡ S.held shelf.old }
    ensures stays_steady { S.steady shelf.old → S.steady shelf.new }
    ensures later { S.faults shelf.old ≤ S.faults shelf.new }
    ensures overlong_later { S.overlong shelf.old ≤ S.overlong shelf.new }
{
    match shelf.fetch(alloc, file, FILE_LIMIT) {
        Ok(text) => Ok(text),
        Err(FetchFault::Failed) => Err(Answer::CannotRead { file }),
        Err(FetchFault::TooLong { length }) => Err(Answer::TooLong { file, length }),
        Err(FetchFault::OutOfMemory) => Err(Answer::OutOfMemory),
    }
}

/// Fetches a model or a Verilog text, and the plan or the stimulus beside it, or answers why one of them
/// can't be had. Where no file holds the second text, it has no bytes.
pub fn fetch_both<'a, S: Shelf>(
    alloc: Global,
    first: &'a str,
    second: Option<&'a str>,
    shelf: &mut S,
) -> Result<Texts, Answer<'a>>
    ensures found { IfOk result (λ texts. Fetched (S.held shelf.old first.now) file_limit
        texts.first) }
    ensures says { IfOk result (λ texts. IsPlanText (S.held shelf.old) (word_of second.entry)
        texts.second) }
    ensures refused { IfErr result (IsPairAnswer
        (files_in S.held S.steady S.faults S.overlong shelf.old shelf.new) first.now
        (word_of second.entry)) }
{
    let first = match fetch_file(alloc, first, shelf) {
        Ok(first) => first,
        Err(answer) => return Err(answer),
    };
    let Some(second) = second else {
        return Ok(Texts {
            first,
            second: Text::new(),
        });
    };
    match fetch_file(alloc, second, shelf) {
        Ok(second) => Ok(Texts { first, second }),
        Err(answer) => {
            drop(first);
            Err(answer)
        }
    }
}
