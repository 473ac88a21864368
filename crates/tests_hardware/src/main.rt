//! Makes netlists, steps them clock by clock, and writes their modules, so that the gate compares
//! what each shows; tells the slots and multipliers of shared operations; and reads Verilog texts.
//!
//! Standard input has texts and rows (`tests_rows` says how they are written). There is one netlist
//! at a time, whose nets are named by their numbers, or as `@K` by place K of the answers of the
//! last `chain`, `line`, `share` or `gather`. A WORD is `s` or `u` and a width, a FRAME its period and latency.
//!
//! | row | what it does |
//! |---|---|
//! | `new = CYCLES` | begins a netlist with so many clocks a base sample |
//! | `net = WORD KIND ..` | a net more (`nets.rt` has the kinds) |
//! | `port = NET` | an input port of the net |
//! | `output = NET PERIOD LATENCY`, `label = NET NAME` | an output port, and a label |
//! | `connect = NET ARGUMENT` | gives a `resize` its argument |
//! | `counter = FRAME` | prints the number and the width of the frame's Counter |
//! | `sums = COUNT` | so many nets more, sums and registers in turn, the first of nets 0 and 0 |
//! | `tidy =` | has the passes go over the netlist, which has neither ports nor labels |
//! | `sound =` | prints whether the netlist can be run |
//! | `size =` | prints how many nets, ports, labels, registers and Units there are, and answers |
//! | `inputs NAME` | the text has the numbers of the inputs, clock by clock |
//! | `show = NET CLOCKS FIRST STEP` | prints what the net shows in clock FIRST, FIRST + STEP and so on |
//! | `chain NAME FROM FRAME INITIAL plain` or `.. registered` | a chain, whose uses the text has: shift, period, and how many such uses there are, each shifted by one more |
//! | `line = FROM FRAME INITIAL plain SHIFT PERIOD` or `.. registered ..` | a chain of one use |
//! | `share NAME` | shared multipliers; the text has of each operation its frame, slot, multiplier and operands. Behind the numbers of the products, the answers have the operands of each Unit |
//! | `gather NAME FRAME NET` | an accumulator of what a net shows in the slots that the text has, which rise |
//! | `module =`, `items =` | prints the netlist's module, and how many items it has |
//! | `spelled = NET` | prints the lines of its module that give the net its value |
//! | `slots NAME MULTIPLIERS KINDS PERIOD LEVELS START HAVE ..` | prints slots and multipliers, and the first slots of so many levels of the period, or the period that is short; the text has the kind, period and level of each operation |
//! | `put = FRAME NUMBER`, `remove = FRAME`, `find = FRAME` | an index of frames |
//! | `read NAME` | prints the module of a text: its name and attributes, then each port and each item on a line; or the line at which the text is none |
//! | `write NAME` | prints the module's written text, or that line |
//! | `fault NAME` | prints that line, 0 where the text is one |
//! | `cuts NAME` | prints that line of each of the text's beginnings, the shortest first |
//!
//! An expression of a module that is read is told as `(Add a b.3)`, the name of its form before its
//! parts, and a number as its width, `s` or `u`, and its bits.
//!
//! What the gate compares this with was worked out by hand.
#![tactic(auto)]

mod bench;
mod gathered;
mod lines;
mod modules;
mod nets;
mod reading;
mod shared;
mod shown;
mod slots;
mod stepping;
mod texts;

use crate::bench::Bench;
use anyhow::Result;
use tests_rows::answer_lines;

fn main(rt: HostRuntime) -> Result<()> {
    let mut bench = Bench::new(rt.alloc());
    answer_lines(&rt, rt.alloc(), &mut bench)
}
