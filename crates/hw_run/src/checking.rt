//! Whether a netlist can be run.
ghost use Rattle.std.specs.Prelude.{◌≡◌, ◌+◌, ◌-◌, ◌*◌, ◌<◌, ◌*ℤ◌, ◌↔◌, [], ℕ};
ghost use Rattle.std.specs.Prelude.{length, All, IfOk, slice_get, Some, pos, IsTrue};
ghost use Rattle.math_num.specs.Word.{IsWord, InWord, word_lowest, word_highest};
ghost use Rattle.hw_net.specs.declared.netlist.NetPort.{NetPort};
ghost use Rattle.hw_net.specs.declared.netlist.NetKind.TheVariants.{Comb};
ghost use Rattle.hw_net.specs.declared.netlist.NetOp.TheVariants.{Input};
ghost use Rattle.hw_net.specs.Operation.{arity};
ghost use Rattle.hw_net.specs.Netlist.{IsNetlist, IsKind, HasWord, HasBits, HasParts};
ghost use Rattle.hw_net.specs.Netlist.{HoldsProducts, IsInput, reads};

use crate::timing::first_count;
use fx_io::OutOfMemory;
use fx_num::{fits, highest, is_word, lowest};
use hw_net::{Frame, Net, NetKind, NetOp, NetPort, Netlist, arity};
use hw_order::is_ranked;
use std::alloc::Global;

/// Whether all nets have words.
fn are_words(nets: &[Net]) -> bool
    ensures { IsTrue result ↔ All (λ net. IsWord net.width net.signed) nets.now }
{
    nets.iter().all(|net| is_word(net.width, net.signed))
}

/// Whether all of these numbers are below the count.
fn are_below(count: usize, numbers: &[u32]) -> bool
    ensures { IsTrue result ↔ All (λ number. number < count) numbers.now }
{
    numbers.iter().all(|number| (*number as usize) < count)
}

/// Whether all nets that a net reads are there.
fn reads_are_there(count: usize, kind: &NetKind) -> bool
    ensures { IsTrue result ↔ All (λ read. read < count) (reads kind.now) }
{
    match kind {
        NetKind::Comb { op: _, args } => are_below(count, args.as_slice()),
        NetKind::Reg { from, .. } => are_below(count, &[*from]),
        NetKind::EnReg { enable, from, .. } => are_below(count, &[*enable, *from]),
        NetKind::Acc { enable, from, .. } => are_below(count, &[*enable, *from]),
        NetKind::Bridge { from, .. } => are_below(count, &[*from]),
        NetKind::Unit { left, right } => are_below(count, &[*left, *right]),
        NetKind::Counter { .. } => true,
    }
}

/// Whether all nets that are read are there.
fn are_there(nets: &[Net]) -> bool
    ensures { IsTrue result
        ↔ All (λ net. All (λ read. read < length nets.now) (reads net.kind)) nets.now }
{
    nets.iter()
        .all(|net| reads_are_there(nets.len(), &net.kind))
}

/// Whether these bits are there in the words of nets.
fn has_bits(nets: &[Net], args: &[u32], high: u8, low: u8) -> bool
    requires { All (λ read. read < length nets.now) args.now }
    ensures { IsTrue result ↔ HasBits nets.now args.now high low }
{
    low <= high && args.iter().all(|read| high < nets[*read as usize].width)
}

/// Whether what an operation names is there.
fn has_parts(nets: &[Net], inputs: usize, args: &[u32], op: NetOp) -> bool
    requires { All (λ read. read < length nets.now) args.now }
    ensures { IsTrue result ↔ HasParts nets.now inputs args.now op }
{
    match op {
        NetOp::Input(number) => (number as usize) < inputs,
        NetOp::Const(_)
        | NetOp::Resize
        | NetOp::ShiftUp(_)
        | NetOp::ShiftDown(_)
        | NetOp::Add
        | NetOp::Subtract
        | NetOp::Negate
        | NetOp::Multiply
        | NetOp::And
        | NetOp::Or
        | NetOp::Xor
        | NetOp::Not
        | NetOp::Less
        | NetOp::Equal
        | NetOp::Choose => true,
        NetOp::Slice { high, low } => has_bits(nets, args, high, low),
    }
}

/// Whether an operation has its arguments and its parts.
fn is_operation(nets: &[Net], inputs: usize, op: NetOp, args: &[u32]) -> bool
    requires { All (λ read. read < length nets.now) args.now }
    ensures { IsTrue result
        ↔ ((length args.now ≡ arity op) × HasParts nets.now inputs args.now op) }
{
    args.len() == arity(op) && has_parts(nets, inputs, args, op)
}

/// Whether the net of a number has a word.
fn has_word(nets: &[Net], number: u32, width: u8, signed: bool) -> bool
    requires { number < length nets.now }
    ensures { IsTrue result ↔ HasWord nets.now number width signed }
{
    let net = &nets[number as usize];
    net.width == width && net.signed == signed
}

/// Whether the word has the product of two numbers.
fn holds_product(left: i128, right: i128, width: u8, signed: bool) -> bool
    requires { IsWord width signed }
    ensures { IsTrue result ↔ InWord width signed (left *ℤ right) }
{
    match left.checked_mul(right) {
        Some(product) => fits(product, width, signed),
        None => false,
    }
}

/// Whether the word has the products of a number with the ends of another word.
fn holds_ends(left: i128, other: &Net, width: u8, signed: bool) -> bool
    requires word { IsWord width signed }
    requires other { IsWord other.now.width other.now.signed }
    ensures { IsTrue result
        ↔ (InWord width signed (left *ℤ word_lowest other.now.width other.now.signed)
        × InWord width signed (left *ℤ word_highest other.now.width other.now.signed)) }
{
    holds_product(left, lowest(other.width, other.signed), width, signed)
        && holds_product(left, highest(other.width, other.signed), width, signed)
}

/// Whether the word has every product of numbers of the words of two nets: it has those of the
/// ends.
fn holds_products(nets: &[Net], left: u32, right: u32, width: u8, signed: bool) -> bool
    requires word { IsWord width signed }
    requires words { All (λ net. IsWord net.width net.signed) nets.now }
    requires left { left < length nets.now }
    requires right { right < length nets.now }
    ensures { IsTrue result ↔ HoldsProducts nets.now left right width signed }
{
    let one = &nets[left as usize];
    let other = &nets[right as usize];
    holds_ends(lowest(one.width, one.signed), other, width, signed)
        && holds_ends(highest(one.width, one.signed), other, width, signed)
}

/// Whether a register has a frame with clocks, the word of what it takes, and its first number.
fn is_held(nets: &[Net], frame: Frame, first: i128, from: u32, one: &Net) -> bool
    requires word { IsWord one.now.width one.now.signed }
    requires from { from < length nets.now }
    ensures { IsTrue result ↔ ((0 < frame.period)
        × HasWord nets.now from one.now.width one.now.signed
        × InWord one.now.width one.now.signed first) }
{
    0 < frame.period
        && has_word(nets, from, one.width, one.signed)
        && fits(first, one.width, one.signed)
}

/// Whether a bridge has a frame with clocks, lives, and has the word of what it passes.
fn is_bridge(nets: &[Net], frame: Frame, live: u32, from: u32, one: &Net) -> bool
    requires { from < length nets.now }
    ensures { IsTrue result ↔ ((0 < frame.period) × (0 < live)
        × HasWord nets.now from one.now.width one.now.signed) }
{
    0 < frame.period && 0 < live && has_word(nets, from, one.width, one.signed)
}

/// Whether a counter has a frame with clocks, and a word for its first count.
fn is_counter(frame: Frame, cycles: u32, one: &Net) -> bool
    requires word { IsWord one.now.width one.now.signed }
    requires cycles { 0 < cycles }
    ensures { IsTrue result ↔ ((0 < frame.period)
        × InWord one.now.width one.now.signed
        (pos (frame.latency * cycles + frame.period * cycles - 1))) }
{
    0 < frame.period && fits(first_count(frame, cycles), one.width, one.signed)
}

/// Whether a net is of a kind that can be run.
fn is_kind(nets: &[Net], cycles: u32, inputs: usize, one: &Net) -> bool
    requires cycles { 0 < cycles }
    requires words { All (λ net. IsWord net.width net.signed) nets.now }
    requires word { IsWord one.now.width one.now.signed }
    requires there { All (λ read. read < length nets.now) (reads one.now.kind) }
    ensures { IsTrue result
        ↔ IsKind nets.now cycles inputs one.now.width one.now.signed one.now.kind }
{
    match &one.kind {
        NetKind::Comb { op, args } => is_operation(nets, inputs, *op, args.as_slice()),
        NetKind::Reg {
            frame,
            slot: _,
            first,
            from,
        } => is_held(nets, *frame, *first, *from, one),
        NetKind::EnReg {
            frame,
            enable: _,
            reset: _,
            first,
            from,
        } => is_held(nets, *frame, *first, *from, one),
        NetKind::Acc {
            frame,
            enable: _,
            from,
        } => is_held(nets, *frame, 0, *from, one),
        NetKind::Bridge { frame, live, from } => is_bridge(nets, *frame, *live, *from, one),
        NetKind::Unit { left, right } => holds_products(nets, *left, *right, one.width, one.signed),
        NetKind::Counter { frame } => is_counter(*frame, cycles, one),
    }
}

/// Whether all nets are of kinds that can be run.
fn are_kinds(nets: &[Net], cycles: u32, inputs: usize) -> bool
    requires cycles { 0 < cycles }
    requires words { All (λ net. IsWord net.width net.signed) nets.now }
    requires there { All (λ net. All (λ read. read < length nets.now) (reads net.kind)) nets.now }
    ensures { IsTrue result
        ↔ All (λ net. IsKind nets.now cycles inputs net.width net.signed net.kind) nets.now }
{
    nets.iter().all(|one| is_kind(nets, cycles, inputs, one))
}

/// Whether a net shows the input of a place.
fn shows_input(net: &Net, place: usize) -> bool
    ensures { IsTrue result ↔ (net.now.kind ≡ Comb (Input place) []) }
{
    let NetKind::Comb {
        op: NetOp::Input(input),
        args,
    } = &net.kind
    else {
        return false;
    };
    *input as usize == place && args.as_slice().is_empty()
}

/// Whether the net of a number shows the input of a place.
fn is_input(nets: &[Net], number: u32, place: usize) -> bool
    ensures { IsTrue result ↔ IsInput nets.now number place }
{
    match nets.get(number as usize) {
        Some(net) => shows_input(net, place),
        None => false,
    }
}

/// Whether the net of each input port shows that input.
fn are_inputs(nets: &[Net], inputs: &[NetPort]) -> bool
    ensures { IsTrue result ↔ ((k : ℕ) (port : NetPort) → slice_get inputs.now k ≡ Some port
        → IsInput nets.now port.net k) }
{
    for k in 0..inputs.len() {
        if !is_input(nets, inputs[k].net, k) {
            return false;
        }
    }
    true
}

/// Whether the net of each output port is there.
fn are_outputs(nets: &[Net], outputs: &[NetPort]) -> bool
    ensures { IsTrue result ↔ All (λ port. port.net < length nets.now) outputs.now }
{
    outputs.iter().all(|port| (port.net as usize) < nets.len())
}

/// Whether a netlist can be run: all that its nets name is there, words hold what can come, and no
/// net reaches itself in a clock. It takes time in the nets and what they read.
pub fn is_netlist(alloc: Global, net: &Netlist) -> Result<bool, OutOfMemory>
    ensures { IfOk result (λ is. IsTrue is ↔ IsNetlist net.now) }
{
    let nets = net.nets();
    if net.cycles() == 0 || !are_words(nets) || !are_there(nets) {
        return Ok(false);
    }
    if !are_kinds(nets, net.cycles(), net.inputs().len()) {
        return Ok(false);
    }
    if !are_inputs(nets, net.inputs()) || !are_outputs(nets, net.outputs()) {
        return Ok(false);
    }
    is_ranked(alloc, nets)
}
