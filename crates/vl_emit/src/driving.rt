//! What drives each net.
ghost use Rattle.std.specs.Prelude.{◌≡◌, ◌<◌, ℕ, length, IfOk};
ghost use Rattle.hw_net.specs.declared.netlist.NetOp.TheVariants.{Input};
ghost use Rattle.hw_net.specs.declared.netlist.NetKind.TheVariants.{Comb, Reg, EnReg, Bridge};
ghost use Rattle.hw_net.specs.declared.netlist.NetKind.TheVariants.{Acc, Unit, Counter};
ghost use Rattle.vl_emit.specs.inner.Ready.{Drives, IsNet, HasArguments, HasKind, input_count};
ghost use Rattle.vl_emit.specs.inner.Ready.{argument_in, input_in, taken_in, added_in, HasFrame};
ghost use Rattle.vl_emit.specs.inner.Spoken.{wire_at, CanBeWritten};

use crate::conditions::{
    adding, clocks, enable, enabled_taking, live_test, slot_test, with_enable,
};
use crate::operands::{Operand, numbered, operand_name, text_of};
use crate::operators::{constant, expression, plain, product, test_of};
use crate::source::{Source, input_operand, operand};
use hw_net::{Frame, NetOp};
use std::alloc::Global;
use vl_ast::{
    BinOp, Expr, Listing, Made, ModItem, Sized, binary, choose, named, put_assignment, put_register,
};

/// An argument by its place, or the net itself where there is none.
fn argument<'a>(source: Source<'a>, args: &[u32], place: usize, own: usize) -> Operand<'a>
    requires { HasArguments source own args.now }
    ensures wire { place < length args.now → wire_at result
        ≡ argument_in source.entry args.now place }
    ensures word { CanBeWritten result }
{
    if place < args.len() {
        operand(source, args[place] as usize)
    } else {
        operand(source, own)
    }
}

/// The port that an Input shows, or the net itself for another operation.
fn port<'a>(source: Source<'a>, op: NetOp, own: usize) -> Operand<'a>
    requires net { IsNet source own }
    requires there { (input : ℕ) → op ≡ Input input → input < input_count source }
    ensures wire { (input : ℕ) → op ≡ Input input → wire_at result ≡ input_in source.entry input }
    ensures word { CanBeWritten result }
{
    if let NetOp::Input(input) = op {
        return input_operand(source, input);
    }
    operand(source, own)
}

/// Puts the item of a net that is an operation on others.
pub fn put_comb(
    alloc: Global,
    out: &mut Listing<ModItem>,
    source: Source,
    own: usize,
    op: NetOp,
    args: &[u32],
)
    requires { HasKind source own (Comb op args.now) }
    ensures { Drives source.entry own (Comb op args.now) out.old out.new }
{
    let net = &source.netlist.nets()[own];
    let word = (net.width, net.signed);
    let port = port(source, op, own);
    let first = argument(source, args, 0, own);
    let second = argument(source, args, 1, own);
    let third = argument(source, args, 2, own);
    let name = text_of(alloc, operand(source, own).called);
    let value = expression(alloc, op, port, first, second, third, word);
    put_assignment(out, name, value);
}

/// Puts the item of a shared multiplier.
pub fn put_unit(
    alloc: Global,
    out: &mut Listing<ModItem>,
    source: Source,
    own: usize,
    left: u32,
    right: u32,
)
    requires { HasKind source own (Unit left right) }
    ensures { Drives source.entry own (Unit left right) out.old out.new }
{
    let net = operand(source, own);
    let left = operand(source, left as usize);
    let right = operand(source, right as usize);
    let value = product(alloc, left, right, net.width);
    put_assignment(out, text_of(alloc, net.called), value);
}

/// Puts the item of a Counter.
pub fn put_counter(
    alloc: Global,
    out: &mut Listing<ModItem>,
    source: Source,
    own: usize,
    frame: Frame,
)
    requires { HasKind source own (Counter frame) }
    ensures { Drives source.entry own (Counter frame) out.old out.new }
{
    let net = operand(source, own);
    let top = u128::from(clocks(source, frame) - 1);
    let start = u128::from(frame.latency) * u128::from(source.netlist.cycles());
    let one = Expr::Literal(plain(net.width, 1));
    let less = binary(alloc, BinOp::Subtract, operand_name(alloc, net), Ok(one));
    let greatest = Expr::Literal(plain(net.width, top));
    put_register(
        out,
        text_of(alloc, net.called),
        plain(net.width, start + top),
        enable(alloc),
        choose(alloc, test_of(alloc, net), less, Ok(greatest)),
    );
}

/// Puts the item of a register.
pub fn put_reg(
    alloc: Global,
    out: &mut Listing<ModItem>,
    source: Source,
    own: usize,
    frame: Frame,
    slot: u32,
    first: i128,
    from: u32,
)
    requires { HasKind source own (Reg frame slot first from) }
    ensures { Drives source.entry own (Reg frame slot first from) out.old out.new }
{
    let net = &source.netlist.nets()[own];
    put_register(
        out,
        text_of(alloc, operand(source, own).called),
        constant(net.width, net.signed, first),
        with_enable(alloc, slot_test(alloc, source, frame, u64::from(slot))),
        operand_name(alloc, operand(source, from as usize)),
    );
}

/// What a register with enable takes: the value of a net, or `begun` where it is reset and `enable`
/// is 0.
fn next_value(
    alloc: Global,
    source: Source,
    enable: u32,
    reset: bool,
    from: u32,
    begun: Sized,
) -> Made<Expr>
    requires enable { IsNet source enable }
    requires from { IsNet source from }
    ensures { IfOk result (λ e. e ≡ taken_in source.entry enable reset from begun) }
{
    let value = operand_name(alloc, operand(source, from as usize));
    if !reset {
        return value;
    }
    let test = test_of(alloc, operand(source, enable as usize));
    choose(alloc, test, value, Ok(Expr::Literal(begun)))
}

/// Puts the item of a register with enable. Where `enable` is 0 it begins anew with `reset`, else
/// it keeps its value.
pub fn put_enabled(
    alloc: Global,
    out: &mut Listing<ModItem>,
    source: Source,
    own: usize,
    frame: Frame,
    enable: u32,
    reset: bool,
    first: i128,
    from: u32,
)
    requires { HasKind source own (EnReg frame enable reset first from) }
    ensures { Drives source.entry own (EnReg frame enable reset first from) out.old out.new }
{
    let net = &source.netlist.nets()[own];
    let begun = constant(net.width, net.signed, first);
    put_register(
        out,
        text_of(alloc, operand(source, own).called),
        constant(net.width, net.signed, first),
        enabled_taking(alloc, source, frame, enable, reset),
        next_value(alloc, source, enable, reset, from, begun),
    );
}

/// What an accumulator takes: `begun` at the frame's end, else itself and the value of a net.
fn sum_so_far(
    alloc: Global,
    source: Source,
    own: usize,
    frame: Frame,
    from: u32,
    begun: Sized,
) -> Made<Expr>
    requires own { IsNet source own }
    requires from { IsNet source from }
    requires frame { HasFrame source frame }
    ensures { IfOk result (λ e. e ≡ added_in source.entry own frame from begun) }
{
    let last = slot_test(alloc, source, frame, clocks(source, frame) - 1);
    let held = operand_name(alloc, operand(source, own));
    let more = operand_name(alloc, operand(source, from as usize));
    let sum = binary(alloc, BinOp::Add, held, more);
    choose(alloc, last, Ok(Expr::Literal(begun)), sum)
}

/// Puts the item of an accumulator.
pub fn put_accumulator(
    alloc: Global,
    out: &mut Listing<ModItem>,
    source: Source,
    own: usize,
    frame: Frame,
    enable: u32,
    from: u32,
)
    requires { HasKind source own (Acc frame enable from) }
    ensures { Drives source.entry own (Acc frame enable from) out.old out.new }
{
    let net = &source.netlist.nets()[own];
    let begun = constant(net.width, net.signed, 0);
    put_register(
        out,
        text_of(alloc, operand(source, own).called),
        constant(net.width, net.signed, 0),
        adding(alloc, source, frame, enable),
        sum_so_far(alloc, source, own, frame, from, begun),
    );
}

/// Puts the items of a bridge: its wire, and the register that holds its value.
pub fn put_bridge(
    alloc: Global,
    out: &mut Listing<ModItem>,
    source: Source,
    own: usize,
    frame: Frame,
    live: u32,
    from: u32,
)
    requires { HasKind source own (Bridge frame live from) }
    ensures { Drives source.entry own (Bridge frame live from) out.old out.new }
{
    let net = operand(source, own);
    let test = live_test(alloc, source, frame, live);
    let passed = operand_name(alloc, operand(source, from as usize));
    let held = named(numbered(alloc, b"fx_h", own));
    let value = choose(alloc, test, passed, held);
    put_assignment(out, text_of(alloc, net.called), value);
    put_register(
        out,
        numbered(alloc, b"fx_h", own),
        plain(net.width, 0),
        enable(alloc),
        operand_name(alloc, net),
    );
}
