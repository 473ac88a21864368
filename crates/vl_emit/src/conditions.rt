//! When registers take their values.
ghost use Rattle.std.specs.Prelude.{◌≡◌, ◌<◌, ◌-◌, ◌*◌, IfOk, Some, None};
ghost use Rattle.vl_ast.specs.Gated.{gated_condition};
ghost use Rattle.vl_ast.specs.declared.expressions.Expr.{Expr};
ghost use Rattle.vl_emit.specs.inner.Ready.{HasFrame, net_count, cycles_in};
ghost use Rattle.vl_emit.specs.inner.Ready.{counter_in, slot_in, live_in};
ghost use Rattle.vl_emit.specs.inner.Ready.{taking_in, adding_in};
ghost use Rattle.vl_emit.specs.inner.NetItems.{compares};

use crate::operands::{operand_name, zeros};
use crate::operators::{plain, test_of};
use crate::source::{Source, operand};
use fx_io::Text;
use hw_net::Frame;
use std::alloc::Global;
use vl_ast::{BinOp, Expr, Made, binary, named};

/// How many clocks a frame has.
pub fn clocks(source: Source, frame: Frame) -> u64
    ensures { result ≡ frame.period * cycles_in source.entry }
{
    u64::from(frame.period) * u64::from(source.netlist.cycles())
}

/// The number of the Counter of a frame, compared with another.
fn count_test(alloc: Global, source: Source, frame: Frame, op: BinOp, number: u64) -> Made<Expr>
    requires { HasFrame source frame }
    ensures { IfOk result (λ e. e ≡ compares op (counter_in source.entry frame) number) }
{
    let place = source.netlist.counter_of(frame).unwrap();
    let counter = operand(source, place as usize);
    let number = Expr::Literal(plain(counter.width, u128::from(number)));
    binary(alloc, op, operand_name(alloc, counter), Ok(number))
}

/// Whether the clock is that of a slot of the frame.
pub fn slot_test(alloc: Global, source: Source, frame: Frame, slot: u64) -> Made<Expr>
    requires { HasFrame source frame }
    ensures { IfOk result (λ e. e ≡ slot_in source.entry frame slot) }
{
    let clocks = clocks(source, frame);
    if clocks <= slot {
        return Ok(zeros(1));
    }
    count_test(alloc, source, frame, BinOp::Equal, clocks - 1 - slot)
}

/// Whether the clock is before a frame or among its first `live` base samples.
pub fn live_test(alloc: Global, source: Source, frame: Frame, live: u32) -> Made<Expr>
    requires { HasFrame source frame }
    ensures { IfOk result (λ e. e ≡ live_in source.entry frame live) }
{
    let left = u64::from(frame.period.saturating_sub(live));
    let bound = left * u64::from(source.netlist.cycles());
    count_test(alloc, source, frame, BinOp::GreaterEqual, bound)
}

/// The name of the clock enable.
pub fn enable(alloc: Global) -> Made<Expr>
    ensures { IfOk result (λ e. e ≡ gated_condition None) }
{
    named(Text::copy(alloc, b"clk_enable"))
}

/// A condition of a register, which may have wanted memory, with the clock enable before it.
pub fn with_enable(alloc: Global, condition: Made<Expr>) -> Made<Expr>
    ensures { (test : Expr) → IfOk condition (λ e. e ≡ test)
        → IfOk result (λ e. e ≡ gated_condition (Some test)) }
{
    binary(alloc, BinOp::Both, enable(alloc), condition)
}

/// Whether the clock is enabled, and the last of a frame's or one at which `enable` isn't 0.
pub fn adding(alloc: Global, source: Source, frame: Frame, enable: u32) -> Made<Expr>
    requires frame { HasFrame source frame }
    requires enable { enable < net_count source }
    ensures { IfOk result (λ e. e ≡ gated_condition (Some (adding_in source.entry frame enable))) }
{
    let last = slot_test(alloc, source, frame, clocks(source, frame) - 1);
    let test = test_of(alloc, operand(source, enable as usize));
    with_enable(alloc, binary(alloc, BinOp::Either, last, test))
}

/// Whether the clock is enabled, and the last of a frame's, and `enable` isn't 0 where nothing is reset.
pub fn enabled_taking(
    alloc: Global,
    source: Source,
    frame: Frame,
    enable: u32,
    reset: bool,
) -> Made<Expr>
    requires frame { HasFrame source frame }
    requires enable { enable < net_count source }
    ensures { IfOk result (λ e. e
        ≡ gated_condition (Some (taking_in source.entry frame enable reset))) }
{
    let last = slot_test(alloc, source, frame, clocks(source, frame) - 1);
    if reset {
        return with_enable(alloc, last);
    }
    let test = test_of(alloc, operand(source, enable as usize));
    with_enable(alloc, binary(alloc, BinOp::Both, last, test))
}
