//! A netlist that grows: its data, with an index of its Counters.
ghost use Rattle.std.specs.Prelude.{◌≡◌, ◌↔◌, ℕ, List, ◌+◌, ◌*◌, ◌-◌, ◌<◌, ◌++◌, ◌∷◌, [], length};
ghost use Rattle.std.specs.Prelude.{IfOk, OnOk, OnErr, Option};
ghost use Rattle.std.specs.Prelude.{None, Some, IsTrue, MatchOption, false, pos, ◌≤◌, ◌^◌, max};
ghost use Rattle.hw_net.specs.ByFrame.{number_at_frame};
ghost use Rattle.hw_net.specs.Circuit.{Circuit};
ghost use Rattle.hw_net.specs.Frames.{counter_of, counted_frame};
ghost use Rattle.hw_net.specs.Growing.{with_net, IsCounted, IsResize, IsConnected};
ghost use Rattle.hw_net.specs.inner.Index.{IsIndex, IsKnown};
ghost use Rattle.math_num.specs.Word.{IsWord, InWord};

use crate::frame_index::FrameIndex;
use crate::netlist::{Frame, Net, NetKind, NetLabel, NetLabels, NetOp, NetPort, NetPorts, Nets};
use fx_io::{OutOfMemory, Sequence, Sizes};
use std::alloc::Global;
use std::marker::Model;

/// Nets with the ports of a module (own). Contracts see its data (`Circuit`): how many clocks a
/// base sample has, the nets by number, the ports in order, and names for some nets.
#[derive(Drop)]
pub struct Netlist {
    cycles: u32,
    nets: Nets,
    inputs: NetPorts,
    outputs: NetPorts,
    labels: NetLabels,
    counters: FrameIndex,
}

impl Model for Netlist {
    ghost use Rattle.std.specs.Prelude.{◌≡◌};
    ghost use Rattle.hw_net.specs.Circuit.{Circuit, circuit_of};
    ghost use Rattle.hw_net.specs.inner.Index.{IsIndex};

    ghost Value = { Circuit };

    ghost view = { λ netlist.
        circuit_of netlist.cycles netlist.nets netlist.inputs netlist.outputs netlist.labels };

    ghost invariant = { λ netlist. IsIndex netlist.nets netlist.counters };
}

impl Netlist {
    /// A netlist without a net. A base sample has so many clocks.
    pub fn new(alloc: Global, cycles: u32) -> Netlist
        ensures { result
            ≡ record { cycles = cycles; nets = []; inputs = []; outputs = []; labels = [] } }
    {
        Netlist {
            cycles,
            nets: Sequence::new(alloc),
            inputs: Sequence::new(alloc),
            outputs: Sequence::new(alloc),
            labels: Sequence::new(alloc),
            counters: FrameIndex::new(alloc),
        }
    }

    /// How many clocks a base sample has.
    pub fn cycles(&self) -> u32
        ensures { result ≡ self.now.cycles }
    {
        self.cycles
    }

    /// The nets by number.
    pub fn nets(&self) -> &[Net]
        ensures { result.now ≡ self.now.nets }
    {
        self.nets.as_slice()
    }

    /// The number of the first Counter of a frame, by one look-up.
    pub fn counter_of(&self, frame: Frame) -> Option<u32>
        ensures { result ≡ counter_of self.now.nets frame }
    {
        self.counters.find(frame)
    }

    /// The input ports in order.
    pub fn inputs(&self) -> &[NetPort]
        ensures { result.now ≡ self.now.inputs }
    {
        self.inputs.as_slice()
    }

    /// The output ports in order.
    pub fn outputs(&self) -> &[NetPort]
        ensures { result.now ≡ self.now.outputs }
    {
        self.outputs.as_slice()
    }

    /// The names that nets are to have.
    pub fn labels(&self) -> &[NetLabel]
        ensures { result.now ≡ self.now.labels }
    {
        self.labels.as_slice()
    }

    /// Frees the netlist, so that crates above needn't prove how.
    pub fn discard(self) {
        drop(self);
    }
}

impl Netlist {
    /// Puts a net behind the others and gives its number. Where memory is wanting, or the number
    /// has no room in 32 bits, the netlist stays.
    pub fn add(&mut self, net: Net) -> Result<u32, OutOfMemory>
        ensures number { IfOk result (λ number. number ≡ length self.old.nets) }
        ensures grown { OnOk result (self.new ≡ with_net self.old net) }
        ensures kept { OnErr result (self.new ≡ self.old) }
    {
        append(&mut self.nets, &mut self.counters, net)
    }

    /// The number of the Counter of a frame. One is put behind the other nets where the frame has
    /// none, in the least unsigned word that holds its numbers. Where that fails the netlist stays.
    pub fn counter(&mut self, frame: Frame) -> Result<u32, OutOfMemory>
        requires cycles { 0 < self.old.cycles }
        requires period { 0 < frame.period }
        ensures found { IfOk result (λ number. counter_of self.new.nets frame ≡ Some number) }
        ensures counted { OnOk result (IsCounted self.old self.new frame) }
        ensures kept { OnErr result (self.new ≡ self.old) }
    {
        if let Some(number) = self.counter_of(frame) {
            return Ok(number);
        }
        let counter = Net {
            signed: false,
            width: count_width(frame, self.cycles),
            kind: NetKind::Counter { frame },
        };
        self.add(counter)
    }

    /// Gives a Resize net its argument, in place of any that it had. Where memory is wanting the
    /// netlist stays.
    pub fn connect(&mut self, alloc: Global, number: u32, argument: u32) -> Result<(), OutOfMemory>
        requires { IsResize self.old.nets number }
        ensures connected { OnOk result (IsConnected self.old self.new number argument) }
        ensures kept { OnErr result (self.new ≡ self.old) }
    {
        let mut args = Sizes::new(alloc);
        args.push(argument)?;
        let op = NetOp::Resize;
        self.nets.as_mut_slice()[number as usize].kind = NetKind::Comb { op, args };
        Ok(())
    }

    /// Puts an input port behind the others. Where memory is wanting the netlist stays.
    pub fn add_input(&mut self, port: NetPort) -> Result<(), OutOfMemory>
        ensures grown { OnOk result (self.new
            ≡ record self.old { inputs = self.old.inputs ++ port ∷ [] }) }
        ensures kept { OnErr result (self.new ≡ self.old) }
    {
        self.inputs.push(port)
    }

    /// Puts an output port behind the others. Where memory is wanting the netlist stays.
    pub fn add_output(&mut self, port: NetPort) -> Result<(), OutOfMemory>
        ensures grown { OnOk result (self.new
            ≡ record self.old { outputs = self.old.outputs ++ port ∷ [] }) }
        ensures kept { OnErr result (self.new ≡ self.old) }
    {
        self.outputs.push(port)
    }

    /// Puts a label behind the others. Where memory is wanting the netlist stays.
    pub fn add_label(&mut self, label: NetLabel) -> Result<(), OutOfMemory>
        ensures grown { OnOk result (self.new
            ≡ record self.old { labels = self.old.labels ++ label ∷ [] }) }
        ensures kept { OnErr result (self.new ≡ self.old) }
    {
        self.labels.push(label)
    }
}

/// The frame of which a net of this kind would be the first Counter, if of any.
fn new_frame(counters: &FrameIndex, kind: &NetKind) -> Option<Frame>
    ensures { MatchOption result (IsKnown counters.now (counted_frame kind.now))
        (λ frame. (counted_frame kind.now ≡ Some frame)
        × (number_at_frame counters.now frame ≡ None)) }
{
    match kind {
        NetKind::Counter { frame } => match counters.find(*frame) {
            Some(_) => None,
            None => Some(*frame),
        },
        NetKind::Comb { .. }
        | NetKind::Reg { .. }
        | NetKind::EnReg { .. }
        | NetKind::Acc { .. }
        | NetKind::Bridge { .. }
        | NetKind::Unit { .. } => None,
    }
}

/// Puts a net behind the others and into the index, if it is the first Counter of its frame.
fn append(nets: &mut Nets, counters: &mut FrameIndex, net: Net) -> Result<u32, OutOfMemory>
    requires { IsIndex nets.old counters.old }
    ensures index { IsIndex nets.new counters.new }
    ensures number { IfOk result (λ number. number ≡ length nets.old) }
    ensures grown { OnOk result (nets.new ≡ nets.old ++ net ∷ []) }
    ensures kept { OnErr result (nets.new ≡ nets.old) }
{
    let Ok(number) = u32::try_from(nets.as_slice().len()) else {
        // word: the number of a net, of 32 bits
        return Err(OutOfMemory);
    };
    let Some(frame) = new_frame(counters, &net.kind) else {
        nets.push(net)?;
        return Ok(number);
    };
    counters.put(frame, number)?;
    if let Err(fault) = nets.push(net) {
        counters.remove(frame);
        return Err(fault);
    }
    Ok(number)
}

/// The least width of an unsigned word that holds what a Counter shows at clock 0.
fn count_width(frame: Frame, cycles: u32) -> u8
    requires cycles { 0 < cycles }
    requires period { 0 < frame.period }
    ensures word { IsWord result false }
    ensures room { InWord result false (pos (frame.latency * cycles + frame.period * cycles - 1)) }
    ensures least { 2 ^ (result - 1) ≤ max 1 (frame.latency * cycles + frame.period * cycles - 1) }
{
    let clocks = (u128::from(frame.latency) + u128::from(frame.period)) * u128::from(cycles);
    (clocks - 1).max(1).ilog2() as u8 + 1
}
