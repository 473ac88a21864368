ghost use Rattle.std.specs.Prelude.{◌≡◌, ◌≤◌, ◌++◌, OnErr, OnOk, codes};
ghost use Rattle.fx_io.specs.Cause.{Rose};
ghost use Rattle.fx_io.specs.Sink.{TookProperPrefix, also_took};
ghost use Rattle.fx_top.specs.Answer.{status_of, line_of};
ghost use Rattle.fx_top.specs.Messages.{broken_line, cause_end, name_line, names_end};
ghost use Rattle.std.specs.Fmt.{decimal};
ghost use Rattle.std.specs.List.{flat_map};
ghost use Rattle.fx_top.specs.Call.{Said, stream_in};

use fx_io::{PutFault, Sink, Text, put_all};
use fx_tables::TableCause;
use itoa::Buffer;
use vl_check::VlFault;

/// How a call ended.
#[derive(Drop)]
pub enum Answer<'a> {
    /// The output was written whole.
    Done,
    /// Memory was wanting.
    OutOfMemory,
    /// The words have no listed shape.
    Usage,
    /// The file was not to be had.
    CannotRead {
        file: &'a str,
    },
    /// The output was not taken whole.
    CannotWrite,
    /// The model's file is no MDL text; it stops being the beginning of one at this line, from 1.
    NotMdl {
        file: &'a str,
        line: u64,
    },
    /// The stimulus or the plan has its first bad line there, from 1.
    BadTable {
        file: &'a str,
        line: u64,
        cause: TableCause,
    },
    /// The model, or the plan on its diagram, breaks a rule, which this line tells.
    BreaksRule {
        line: Text,
    },
    /// The Verilog text is not in the subset; it stops being the beginning of one at this line, from
    /// 1.
    NotVerilog {
        file: &'a str,
        line: u64,
    },
    /// The module of the Verilog text breaks this condition first.
    Broken {
        file: &'a str,
        fault: VlFault,
    },
    /// The first instance of the design in the Verilog text that isn't linked as it must be has this
    /// name.
    BadInstance {
        file: &'a str,
        name: Text,
    },
    /// The file has so many bytes.
    TooLong {
        file: &'a str,
        length: u64,
    },
}

impl Answer<'_> {
    /// The exit status.
    pub fn status(&self) -> u8
        ensures { result ≡ status_of self.now }
    {
        match self {
            Answer::Done => 0,
            Answer::OutOfMemory => 1,
            Answer::Usage => 2,
            Answer::CannotRead { .. } => 3,
            Answer::CannotWrite => 4,
            Answer::NotMdl { .. } => 5,
            Answer::BadTable { .. } => 6,
            Answer::BreaksRule { .. } => 7,
            Answer::NotVerilog { .. } | Answer::Broken { .. } | Answer::BadInstance { .. } => 8,
            Answer::TooLong { .. } => 9,
        }
    }

    /// Puts the answer's line, where it has one. A failure changes nothing.
    pub fn report<E: Sink>(&self, err: &mut E)
        ensures { Said (stream_in E.taken E.faults err.old err.new) (line_of self.now) }
    {
        match self {
            Answer::Done => {}
            Answer::OutOfMemory => say(err, &[b"out of memory\n"]),
            Answer::Usage => say(
                err,
                &[
                    b"usage: check MODEL PLAN, simulate MODEL STIM, generate MODEL PLAN, replay VERILOG STIM, sample NUMBER, explore MODEL RANGE, flatten VERILOG, stream MODEL PLAN\n",
                ],
            ),
            Answer::CannotRead { file } => say(err, &[file.as_bytes(), b": cannot be read\n"]),
            Answer::CannotWrite => say(err, &[b"cannot write\n"]),
            Answer::NotMdl { file, line } => {
                say_number(err, file, b": line ", *line, b": not MDL text\n")
            }
            Answer::BadTable { file, line, cause } => {
                say_number(err, file, b": line ", *line, cause_end(*cause))
            }
            Answer::BreaksRule { line } => say(err, &[line.bytes()]),
            Answer::NotVerilog { file, line } => {
                say_number(
                    err,
                    file,
                    b": line ",
                    *line,
                    b": not in the Verilog subset\n",
                )
            }
            Answer::Broken { file, fault } => say_fault(err, file, fault),
            Answer::BadInstance { file, name } => say_name(err, file, b": bad instance: ", name),
            Answer::TooLong { file, length } => {
                say_number(err, file, b": ", *length, b" bytes, at most 16777216\n")
            }
        }
    }
}

/// Puts a line that tells a number of a file, between two texts.
fn say_number<E: Sink>(
    err: &mut E,
    file: &str,
    before: &'static [u8],
    number: u64,
    after: &'static [u8],
)
    ensures { Said (stream_in E.taken E.faults err.old err.new) (file.now ++ before.now
        ++ decimal number ++ after.now) }
{
    let mut digits = Buffer::new();
    let number = digits.format(number).as_bytes();
    say(err, &[file.as_bytes(), before, number, after])
}

/// The end of the line of a cause.
fn cause_end(cause: TableCause) -> &'static [u8]
    ensures { result.now ≡ cause_end cause }
{
    match cause {
        TableCause::TooManyRows => b": too many rows\n",
        TableCause::FieldCount => b": field count\n",
        TableCause::NotWhole => b": not a whole number\n",
        TableCause::OutOfRange => b": out of range\n",
        TableCause::DashAtHit => b": dash at a hit\n",
        TableCause::NumberOffHit => b": number off a hit\n",
        TableCause::PlanLine => b": plan line\n",
    }
}

/// Puts the line of a broken condition.
fn say_fault<E: Sink>(err: &mut E, file: &str, fault: &VlFault)
    ensures { Said (stream_in E.taken E.faults err.old err.new) (broken_line file.now fault.now) }
{
    match fault {
        VlFault::Undriven { name } => say_name(err, file, b": undriven: ", name),
        VlFault::Doubly { name } => say_name(err, file, b": doubly driven: ", name),
        VlFault::CombLoop { names } => say_loop(err, file, names.as_slice()),
        VlFault::TooWide { name } => say_name(err, file, b": too wide: ", name),
        VlFault::NoReset { name } => say_name(err, file, b": no reset: ", name),
        VlFault::NoAttribute { name } => say_name(err, file, b": no attribute: ", name),
        VlFault::OutOfMemory => say(err, &[b"out of memory\n"]),
    }
}

/// Puts the line of a condition that shows one name.
fn say_name<E: Sink>(err: &mut E, file: &str, condition: &[u8], name: &Text)
    ensures { Said (stream_in E.taken E.faults err.old err.new)
        (name_line file.now condition.now name.now) }
{
    say(err, &[file.as_bytes(), condition, name.bytes(), b"\n"])
}

/// Puts the line of a loop, up to a failure.
fn say_loop<E: Sink>(err: &mut E, file: &str, names: &[Text])
    ensures { Said (stream_in E.taken E.faults err.old err.new) (file.now
        ++ codes ": combinational loop:" ++ names_end names.now) }
{
    if let Ok(()) = put_two(err, file.as_bytes(), b": combinational loop:") {
        say_names(err, names);
    }
}

/// Puts names, each behind a space, and the end of the line, up to a failure.
fn say_names<E: Sink>(err: &mut E, names: &[Text])
    ensures said { Said (stream_in E.taken E.faults err.old err.new) (names_end names.now) }
    ensures later { E.faults err.old ≤ E.faults err.new }
{
    for name in names {
        if let Err(_fault) = put_two(err, b" ", name.bytes()) {
            return;
        }
    }
    say(err, &[b"\n"]);
}

/// Puts two pieces, one after the other.
fn put_two<E: Sink>(err: &mut E, first: &[u8], second: &[u8]) -> Result<(), PutFault>
    ensures whole { OnOk result (E.taken err.new
        ≡ also_took (E.taken err.old) (first.now ++ second.now)) }
    ensures cut { OnErr result (TookProperPrefix (E.taken err.old) (E.taken err.new) (first.now
        ++ second.now)) }
    ensures cause { OnErr result (Rose (E.faults err.old) (E.faults err.new)) }
    ensures later { E.faults err.old ≤ E.faults err.new }
{
    put_all(err, first)?;
    if let Err(fault) = put_all(err, second) {
        return Err(fault);
    }
    Ok(())
}

/// Puts the pieces one after another, up to a failure.
fn say<E: Sink>(err: &mut E, pieces: &[&[u8]])
    ensures said { Said (stream_in E.taken E.faults err.old err.new)
        (flat_map (λ piece. piece.now) pieces.now) }
    ensures later { E.faults err.old ≤ E.faults err.new }
{
    let Some((piece, more)) = pieces.split_first() else {
        return;
    };
    if let Ok(()) = put_all(err, piece) {
        say(err, more);
    }
}
