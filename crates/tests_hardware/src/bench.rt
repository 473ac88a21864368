//! Rows, one after another.

use crate::gathered::put_gathered;
use crate::lines::{put_chain, put_line};
use crate::modules::{put_items, put_module, put_spelled, tidied};
use crate::nets::{connect, frame_of, put_label, put_net, put_output, put_port, put_sums};
use crate::reading::told_in;
use crate::shared::put_units;
use crate::slots::put_slots;
use crate::stepping::put_shown;
use crate::texts::{Verilog, put_read, put_written};
use anyhow::{Error, Result};
use fx_io::Sizes;
use hw_net::{FrameIndex, Net, NetKind, Netlist};
use hw_run::is_netlist;
use std::alloc::Global;
use std::io::Write;
use std::thread::Threads;
use tests_rows::{Answers, Line, Row, put_cuts, table_value, write_result};

/// What a row says.
#[derive(Clone, Copy)]
enum Command {
    Fault,
    Cuts,
    Read,
    Write,
    Slots,
    Show,
    Find,
    Counter,
    Size,
    Module,
    Spelled,
    Items,
    Sound,
    New,
    Net,
    Port,
    Output,
    Label,
    Connect,
    Sums,
    Tidy,
    Inputs,
    Parts,
    Put,
    Remove,
}

fn command_of(row: &Row<'_>) -> Result<Command> {
    table_value(
        row.command,
        &[
            ("fault", Command::Fault),
            ("cuts", Command::Cuts),
            ("read", Command::Read),
            ("write", Command::Write),
            ("slots", Command::Slots),
            ("show", Command::Show),
            ("find", Command::Find),
            ("counter", Command::Counter),
            ("size", Command::Size),
            ("module", Command::Module),
            ("spelled", Command::Spelled),
            ("items", Command::Items),
            ("sound", Command::Sound),
            ("new", Command::New),
            ("net", Command::Net),
            ("port", Command::Port),
            ("output", Command::Output),
            ("label", Command::Label),
            ("connect", Command::Connect),
            ("sums", Command::Sums),
            ("tidy", Command::Tidy),
            ("inputs", Command::Inputs),
            ("chain", Command::Parts),
            ("line", Command::Parts),
            ("share", Command::Parts),
            ("gather", Command::Parts),
            ("put", Command::Put),
            ("remove", Command::Remove),
        ],
    )
}

/// What stands between rows.
#[derive(Drop)]
pub struct Bench {
    netlist: Netlist,
    /// The numbers of the inputs, clock by clock.
    inputs: Vec<i128>,
    answers: Sizes,
    index: FrameIndex,
}

impl Bench {
    pub fn new(alloc: Global) -> Bench {
        Bench {
            netlist: Netlist::new(alloc, 1),
            inputs: Vec::new(alloc),
            answers: Sizes::new(alloc),
            index: FrameIndex::new(alloc),
        }
    }

    /// Does what a row says.
    fn answer<R: Threads + Sync, W: Write>(
        &mut self,
        rt: &R,
        alloc: Global,
        row: &mut Row<'_>,
        out: &mut W,
    ) -> Result<()> {
        let command = command_of(row)?;
        let text = row.text.as_slice();
        match command {
            Command::Fault => put_cuts::<Verilog, W>(alloc, text, text.len(), out),
            Command::Cuts => put_cuts::<Verilog, W>(alloc, text, 0, out),
            Command::Read => put_read(alloc, text, out),
            Command::Write => put_written(rt, alloc, text, out),
            Command::Slots => put_slots(alloc, row, out),
            Command::Show => self.show(alloc, row, out),
            Command::Find => self.find(row, out),
            Command::Counter => put_counter(&mut self.netlist, row, out),
            Command::Size => put_size(&self.netlist, self.answers.as_slice().len(), out),
            Command::Module => put_module(rt, alloc, &self.netlist, out),
            Command::Spelled => put_spelled(rt, alloc, &self.netlist, row, out),
            Command::Items => put_items(alloc, &self.netlist, out),
            Command::Sound => put_sound(alloc, &self.netlist, out),
            Command::New => self.begin(alloc, row),
            Command::Net => put_net(alloc, &mut self.netlist, row),
            Command::Port => put_port(alloc, &mut self.netlist, row),
            Command::Output => put_output(alloc, &mut self.netlist, row),
            Command::Label => put_label(alloc, &mut self.netlist, row),
            Command::Connect => connect(alloc, &mut self.netlist, row),
            Command::Sums => put_sums(alloc, &mut self.netlist, row),
            Command::Tidy => self.tidy(alloc),
            Command::Inputs => self.take_inputs(alloc, text),
            Command::Parts => self.put_parts(alloc, row),
            Command::Put => self.put(row),
            Command::Remove => self.remove(row),
        }
    }

    /// Puts in nets that have answers, in the place of those before.
    fn put_parts(&mut self, alloc: Global, row: &mut Row<'_>) -> Result<()> {
        self.answers = match row.command {
            "chain" => put_chain(alloc, &mut self.netlist, row)?,
            "line" => put_line(alloc, &mut self.netlist, row)?,
            "gather" => put_gathered(alloc, &mut self.netlist, row)?,
            _ => put_units(alloc, &mut self.netlist, row)?,
        };
        Ok(())
    }

    /// Takes the numbers of a text as those of the inputs.
    fn take_inputs(&mut self, alloc: Global, text: &[u8]) -> Result<()> {
        self.inputs = told_in(alloc, text, 1)?;
        Ok(())
    }

    /// Has the passes go over the netlist.
    fn tidy(&mut self, alloc: Global) -> Result<()> {
        self.netlist = tidied(alloc, &self.netlist)?;
        Ok(())
    }

    /// Begins a netlist.
    fn begin(&mut self, alloc: Global, row: &mut Row<'_>) -> Result<()> {
        let cycles = row.number()?;
        self.netlist = Netlist::new(alloc, cycles);
        Ok(())
    }

    /// Puts a number into the index of frames.
    fn put(&mut self, row: &mut Row<'_>) -> Result<()> {
        let frame = frame_of(row)?;
        Ok(self.index.put(frame, row.number()?)?)
    }

    /// Takes a frame out of the index.
    fn remove(&mut self, row: &mut Row<'_>) -> Result<()> {
        self.index.remove(frame_of(row)?);
        Ok(())
    }

    /// The net of a word.
    fn net(&self, word: &str) -> Result<u32> {
        match word.strip_prefix("@") {
            Some(place) => {
                match self.answers.as_slice().get(place.parse::<usize>()?) {
                    Some(number) => Ok(*number),
                    None => Err(Error::msg("no answer")),
                }
            }
            None => Ok(word.parse::<u32>()?),
        }
    }

    fn show<W: Write>(&self, alloc: Global, row: &mut Row<'_>, out: &mut W) -> Result<()> {
        let number = self.net(row.next()?)?;
        put_shown(
            alloc,
            &self.netlist,
            self.inputs.as_slice(),
            number,
            row,
            out,
        )
    }

    fn find<W: Write>(&self, row: &mut Row<'_>, out: &mut W) -> Result<()> {
        let found = self.index.find(frame_of(row)?);
        write_result(writeln!(out, "{found:?}"))
    }
}

impl Answers for Bench {
    fn take<R: Threads + Sync, W: Write>(&mut self, line: &Line<'_, R>, out: &mut W) -> Result<()> {
        self.answer(line.rt, line.alloc, &mut line.row()?, out)
    }
}

fn put_sound<W: Write>(alloc: Global, netlist: &Netlist, out: &mut W) -> Result<()> {
    let sound = is_netlist(alloc, netlist)?;
    write_result(writeln!(out, "{sound}"))
}

/// Prints the number of the Counter of a frame, and its width.
fn put_counter<W: Write>(netlist: &mut Netlist, row: &mut Row<'_>, out: &mut W) -> Result<()> {
    let frame = frame_of(row)?;
    if netlist.cycles() == 0 || frame.period == 0 {
        return Err(Error::msg("no frame"));
    }
    let number = netlist.counter(frame)?;
    let found = netlist.counter_of(frame);
    let width = match netlist.nets().get(number as usize) {
        Some(net) => net.width,
        None => return Err(Error::msg("no Counter")),
    };
    write_result(writeln!(out, "{number} {found:?} width {width}"))
}

/// Prints how many of everything there are.
fn put_size<W: Write>(netlist: &Netlist, answers: usize, out: &mut W) -> Result<()> {
    let nets = netlist.nets().len();
    let inputs = netlist.inputs().len();
    let outputs = netlist.outputs().len();
    let labels = netlist.labels().len();
    let (registers, units) = counts_of(netlist.nets());
    writeln!(
        out,
        "nets {nets} inputs {inputs} outputs {outputs} labels {labels} registers {registers} units {units} answers {answers}"
    )?;
    Ok(())
}

/// How many nets hold a number from clock to clock, Counters left out, and how many are Units.
fn counts_of(nets: &[Net]) -> (usize, usize) {
    let mut registers = 0usize;
    let mut units = 0usize;
    for net in nets {
        match &net.kind {
            NetKind::Reg { .. }
            | NetKind::EnReg { .. }
            | NetKind::Acc { .. }
            | NetKind::Bridge { .. } => {
                registers = registers.wrapping_add(1);
            }
            NetKind::Unit { .. } => units = units.wrapping_add(1),
            NetKind::Comb { .. } | NetKind::Counter { .. } => {}
        }
    }
    (registers, units)
}
