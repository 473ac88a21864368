//! What a call finds.

use crate::calls::{Answer, Held, answer_to, bench_answer};
use crate::ends::put_ends;
use crate::plans::{FEW, WHOLE, put_explored};
use crate::samples::{put_sample, put_summary};
use crate::wires::put_wires;
use anyhow::Result;
use cmd_sample::plan_text;
use std::alloc::Global;
use std::io::Write;
use std::thread::Threads;
use tests_rows::{Answers, Line, Row, table_value, write_result};

/// The files, and what fails at the next call.
#[derive(Drop)]
pub struct Case {
    pub files: Vec<Held>,
    pub fetches: Vec<u64>,
    pub puts: Vec<u64>,
    pub piece: usize,
    /// How many pieces standard output takes, and then nothing.
    pub takes: Option<usize>,
    /// The puts to standard error that fail where standard output takes nothing.
    pub failing: Vec<u64>,
}

/// How much a sink takes.
pub const ROOM: usize = 100_000;

impl Case {
    pub fn new(alloc: Global) -> Case {
        Case {
            files: Vec::new(alloc),
            fetches: Vec::new(alloc),
            puts: Vec::new(alloc),
            piece: ROOM,
            takes: None,
            failing: Vec::new(alloc),
        }
    }

    /// The call of these words, by what fails at it.
    fn run<R: Threads + Sync, W: Write>(
        &mut self,
        rt: &R,
        alloc: Global,
        words: &str,
        out: &mut W,
    ) -> Result<()> {
        let answer = answer_to(rt, alloc, self, words)?;
        self.reset();
        put_answer(&answer, out)
    }

    /// Nothing fails at the next call.
    pub fn reset(&mut self) {
        self.fetches.clear();
        self.puts.clear();
        self.failing.clear();
        self.piece = ROOM;
        self.takes = None;
    }

    /// Puts in the file of a name, which holds from here on: so many bytes 0, or the row's text.
    fn put(&mut self, alloc: Global, row: &mut Row<'_>, zeros: bool) -> Result<()> {
        let name = row.next()?;
        let bytes = if zeros {
            let count = row.number()? as usize;
            std::vec![in alloc; 0u8; count]?
        } else {
            row.text.as_slice().to_vec(alloc)?
        };
        let name = String::from_str(alloc, name)?;
        self.files.push(Held { name, bytes })?;
        Ok(())
    }

    /// Standard output takes nothing at the next call, and standard error fails.
    fn stop(&mut self) -> Result<()> {
        self.takes = Some(0);
        self.failing.push(1)?;
        Ok(())
    }

    /// The put, or the fetch, of this number fails at the next call.
    fn fail(&mut self, row: &mut Row<'_>, puts: bool) -> Result<()> {
        let number = row.long()?;
        if puts {
            self.puts.push(number)?;
        } else {
            self.fetches.push(number)?;
        }
        Ok(())
    }

    /// At the next call standard output takes at most so many bytes a put.
    fn narrow(&mut self, row: &mut Row<'_>) -> Result<()> {
        self.piece = row.number()? as usize;
        Ok(())
    }
}

impl Answers for Case {
    fn take<R: Threads + Sync, W: Write>(&mut self, line: &Line<'_, R>, out: &mut W) -> Result<()> {
        let (rt, alloc) = (line.rt, line.alloc);
        let Some((call, rest)) = call_in(line.text) else {
            return put_row(rt, alloc, self, &mut line.row()?, out);
        };
        writeln!(out, "{}", line.text)?;
        match call {
            Call::Bench => {
                let answer = bench_answer(rt, alloc, rest.as_bytes())?;
                put_answer(&answer, out)
            }
            Call::Run => self.run(rt, alloc, rest, out),
            Call::Ends => put_ends(rt, alloc, self, rest, out),
        }
    }
}

/// What a line calls.
#[derive(Clone, Copy)]
enum Call {
    /// `sample 1`, by a bench that tells what stands behind.
    Bench,
    Run,
    Ends,
}

const CALLS: &[(&str, Call)] = &[
    ("bench:", Call::Bench),
    ("run ", Call::Run),
    ("ends ", Call::Ends),
];

/// What a line calls, and what stands behind that; none where it is a row.
fn call_in<'a>(line: &'a str) -> Option<(Call, &'a str)> {
    for entry in CALLS {
        let (begin, call) = *entry;
        if let Some(rest) = line.strip_prefix(begin) {
            return Some((call, rest));
        }
    }
    None
}

/// What a row asks for, or says.
#[derive(Clone, Copy)]
enum Command {
    Explored,
    ExploredFew,
    Wires { meets: bool },
    Sample,
    SamplePlan,
    Summary,
    File { zeros: bool },
    Stuck,
    Fault { puts: bool },
    Piece,
}

const COMMANDS: &[(&str, Command)] = &[
    ("explored", Command::Explored),
    ("explored_few", Command::ExploredFew),
    ("met", Command::Wires { meets: true }),
    ("wires", Command::Wires { meets: false }),
    ("sample", Command::Sample),
    ("sample_plan", Command::SamplePlan),
    ("summary", Command::Summary),
    ("file", Command::File { zeros: false }),
    ("zeros", Command::File { zeros: true }),
    ("stuck", Command::Stuck),
    ("fetch", Command::Fault { puts: false }),
    ("put", Command::Fault { puts: true }),
    ("piece", Command::Piece),
];

/// Writes what a row asks for, or does what it says.
fn put_row<R: Threads + Sync, W: Write>(
    rt: &R,
    alloc: Global,
    case: &mut Case,
    row: &mut Row<'_>,
    out: &mut W,
) -> Result<()> {
    match table_value(row.command, COMMANDS)? {
        Command::Explored => put_explored(rt, alloc, row.text.as_slice(), WHOLE, out),
        Command::ExploredFew => put_explored(rt, alloc, row.text.as_slice(), FEW, out),
        Command::Wires { meets } => put_wires(rt, alloc, row, meets, out),
        Command::Sample => put_sample(alloc, row, out),
        Command::SamplePlan => write_result(out.write_all(plan_text())),
        Command::Summary => put_summary(alloc, row.text.as_slice(), out),
        Command::File { zeros } => case.put(alloc, row, zeros),
        Command::Stuck => case.stop(),
        Command::Fault { puts } => case.fail(row, puts),
        Command::Piece => case.narrow(row),
    }
}

/// Writes what a call answers.
pub fn put_answer<W: Write>(answer: &Answer, out: &mut W) -> Result<()> {
    let status = answer.status;
    writeln!(out, "status {status}")?;
    out.write_all(answer.err.as_slice())?;
    if !answer.out.is_empty() {
        out.write_all(answer.out.as_slice())?;
        out.write_all(b"|\n")?;
    }
    Ok(())
}
