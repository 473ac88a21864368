//! Answers cases of numbers, one a line of standard input, so that the gate runs them as both
//! compilers build them.
//!
//! A line is words, after which a decimal has its text behind a `|`. A type is `s W F` (signed, W
//! bits, F of them behind the point), `u W F` or `L`; END is a result type, a rounding, and `on` or
//! `off` for saturation.
//!
//! | line | what is printed |
//! |---|---|
//! | `wrap V WORD`, `fits V WORD`, `to_bits V WORD`, `from_bits BITS WORD` | of a number and a word (`fx_num`), a type without its point |
//! | `shift_up V BY` | the number shifted, or `None` |
//! | `range TYPE` | the least and the greatest number of a type |
//! | `conversion V FROM END` | the number converted (`fx_round::convert`) |
//! | `decimal TYPE \|TEXT` | sign, digits, exponent and stored integer, or why there are none |
//! | `sum_type N SIGN TYPE ..`, `product_type A B`, `union_type A B` | the full type, or `TooWide` |
//! | `sum N SIGN TYPE V .. END` | the result of the operation, N up to 3 |
//! | `accumulated SIGN TYPE V SIGN TYPE V SIGN TYPE V ACCUMULATOR END` | the same, of a sum in steps |
//! | `gain TYPE V TYPE C END`, `product TYPE V TYPE V END` | the same |
//! | `switch TYPE V TYPE V TYPE V CRITERION T END` | the same |
//! | `relational TYPE V RELATION TYPE V` | the same |
//! | `logic GATE N TYPE V ..` | the same, N up to 3 |
//! | `convert TYPE V END`, `stored TYPE V END`, `pass TYPE V` | the same |
//!
//! The result of an operation is four numbers: what it gives (`dg_blocks::output`), what it gives
//! prepared (`dg_blocks::Prepared`), what its nets show of the same inputs (`hw_lower::lower`), and how many
//! these nets are. Behind the word `output` only the first two of an operation are printed.
#![tactic(auto)]

mod accumulated;
mod bits;
mod nets;
mod operations;
mod types;
mod words;

use crate::bits::Asked;
use crate::nets::Answer;
use crate::operations::Operation;
use anyhow::{Error, Result};
use std::alloc::Global;
use std::io::Write;
use std::thread::Threads;
use tests_rows::{Answers, Line, Row, answer_lines, write_result};

/// Nothing stands between cases.
#[derive(Drop)]
struct Cases;

fn main(rt: HostRuntime) -> Result<()> {
    answer_lines(&rt, rt.alloc(), &mut Cases)
}

impl Answers for Cases {
    fn take<R: Threads + Sync, W: Write>(&mut self, line: &Line<'_, R>, out: &mut W) -> Result<()> {
        let (front, text) = match line.text.split_once('|') {
            Some((front, text)) => (front, text),
            None => (line.text, ""),
        };
        let mut words = Row::of(line.alloc, front)?;
        answer(line.alloc, &mut words, text, out)
    }
}

/// What a line asks for.
#[derive(Clone, Copy)]
enum Command {
    InWord(Asked),
    ShiftUp,
    Range,
    Conversion,
    Decimal,
    SumType,
    ProductType,
    UnionType,
    Output,
    Whole(Operation),
}

const COMMANDS: &[(&str, Command)] = &[
    ("wrap", Command::InWord(Asked::Wrap)),
    ("fits", Command::InWord(Asked::Fits)),
    ("to_bits", Command::InWord(Asked::ToBits)),
    ("from_bits", Command::InWord(Asked::FromBits)),
    ("shift_up", Command::ShiftUp),
    ("range", Command::Range),
    ("conversion", Command::Conversion),
    ("decimal", Command::Decimal),
    ("sum_type", Command::SumType),
    ("product_type", Command::ProductType),
    ("union_type", Command::UnionType),
    ("output", Command::Output),
    ("sum", Command::Whole(Operation::Sum)),
    ("accumulated", Command::Whole(Operation::Accumulated)),
    ("gain", Command::Whole(Operation::Gain)),
    ("product", Command::Whole(Operation::Product)),
    ("switch", Command::Whole(Operation::Switch)),
    ("relational", Command::Whole(Operation::Relational)),
    ("logic", Command::Whole(Operation::Logic)),
    ("convert", Command::Whole(Operation::Convert)),
    ("stored", Command::Whole(Operation::Stored)),
    ("pass", Command::Whole(Operation::Pass)),
];

fn answer<W: Write>(alloc: Global, words: &mut Row<'_>, text: &str, out: &mut W) -> Result<()> {
    match words.one_of(COMMANDS)? {
        Command::InWord(asked) => bits::in_word(asked, words, out),
        Command::ShiftUp => bits::put_shift(words, out),
        Command::Range => types::range(words, out),
        Command::Conversion => types::conversion(words, out),
        Command::Decimal => types::decimal(words, text, out),
        Command::SumType => types::sum_type(alloc, words, out),
        Command::ProductType => types::pair_type(true, words, out),
        Command::UnionType => types::pair_type(false, words, out),
        Command::Output => put_output(alloc, words, out),
        Command::Whole(operation) => put_operation(alloc, operation, true, words, out),
    }
}

/// The first two numbers alone of the operation behind the first word.
fn put_output<W: Write>(alloc: Global, words: &mut Row<'_>, out: &mut W) -> Result<()> {
    match words.one_of(COMMANDS)? {
        Command::Whole(operation) => put_operation(alloc, operation, false, words, out),
        _ => Err(Error::msg("no operation")),
    }
}

/// What an operation gives, and what it gives prepared; in whole also what its nets show, and how
/// many these are.
fn put_operation<W: Write>(
    alloc: Global,
    operation: Operation,
    whole: bool,
    words: &mut Row<'_>,
    out: &mut W,
) -> Result<()> {
    let answer = operations::carried_out(alloc, operation, words)?;
    let Answer {
        value,
        prepared,
        shown,
        nets,
    } = answer;
    if whole {
        write_result(writeln!(out, "{value} {prepared} {shown} {nets}"))
    } else {
        write_result(writeln!(out, "{value} {prepared}"))
    }
}
