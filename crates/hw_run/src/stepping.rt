//! What one net shows at a clock, from the row before and what was worked out of its own.
ghost use Rattle.std.specs.Prelude.{◌≡◌, ◌≢◌, ◌+◌, ◌*◌, ◌-◌, ◌<◌, ◌+ℤ◌, length, pos, slice_get, All};
ghost use Rattle.math_num.specs.Word.{IsWord, IsWrapped};
ghost use Rattle.hw_net.specs.Operation.{given_by};
ghost use Rattle.hw_net.specs.Netlist.{reads};
ghost use Rattle.hw_run.specs.inner.StepTests.{CanGive, CanStep, Shows};
ghost use Rattle.hw_net.specs.NetRows.{number_at, operands_at, span_of};
ghost use Rattle.hw_run.specs.State.{row_of};
ghost use Rattle.hw_net.specs.Step.{RegSteps, EnRegSteps, AccSteps, BridgeSteps};
ghost use Rattle.hw_net.specs.Step.{CounterSteps, NetGoes};

use crate::operation::{operate, word_product, word_sum};
use crate::timing::{first_count, is_live, length_of, takes};
use hw_net::{Frame, Net, NetKind, NetOp};

/// The number of the net that stands at a place of a list; 0 where none does.
fn number_at(row: &[i128], args: &[u32], place: usize) -> i128
    requires { All (λ net. net < length row.now) args.now }
    ensures { result ≡ number_at (row_of row.now) (slice_get args.now place) }
{
    match args.get(place) {
        Some(net) => row[*net as usize],
        None => 0,
    }
}

/// What a Comb net shows: what its operation gives of the nets of a list.
fn comb_value(
    op: NetOp,
    args: &[u32],
    row: &[i128],
    inputs: &[i128],
    width: u8,
    signed: bool,
) -> i128
    requires word { IsWord width signed }
    requires there { All (λ net. net < length row.now) args.now }
    requires parts { CanGive (length inputs.now) op }
    ensures { IsWrapped (given_by op (row_of inputs.now) (operands_at (row_of row.now) args.now))
        width signed result }
{
    let first = number_at(row, args, 0);
    let second = number_at(row, args, 1);
    let third = number_at(row, args, 2);
    operate(op, inputs, first, second, third, width, signed)
}

/// What a register shows after the edge that ends a clock.
fn register_value(frame: Frame, cycles: u32, slot: u32, clock: u64, from: i128, old: i128) -> i128
    requires period { 0 < frame.period }
    requires cycles { 0 < cycles }
    ensures { RegSteps (span_of cycles frame) slot clock from old result }
{
    if takes(frame, cycles, u64::from(slot), clock) {
        from
    } else {
        old
    }
}

/// What a register with enable shows at a clock.
fn enabled_register_value(
    frame: Frame,
    cycles: u32,
    reset: bool,
    first: i128,
    clock: u64,
    enable: i128,
    from: i128,
    old: i128,
) -> i128
    requires period { 0 < frame.period }
    requires cycles { 0 < cycles }
    ensures { Shows clock (result ≡ first)
        (λ before. EnRegSteps (span_of cycles frame) reset first before enable from old result) }
{
    if clock == 0 {
        first
    } else if !takes(frame, cycles, length_of(frame, cycles) - 1, clock - 1) {
        old
    } else if enable != 0 {
        from
    } else if reset {
        first
    } else {
        old
    }
}

/// The number that an accumulator has and, where it is enabled, the one that comes.
fn added(enable: i128, from: i128, old: i128, width: u8, signed: bool) -> i128
    requires word { IsWord width signed }
    ensures adds { enable ≢ pos 0 → IsWrapped (old +ℤ from) width signed result }
    ensures keeps { enable ≡ pos 0 → result ≡ old }
{
    if enable != 0 {
        word_sum(old, from, width, signed)
    } else {
        old
    }
}

/// What an accumulator shows at a clock.
fn accumulator_value(
    frame: Frame,
    cycles: u32,
    clock: u64,
    enable: i128,
    from: i128,
    old: i128,
    width: u8,
    signed: bool,
) -> i128
    requires word { IsWord width signed }
    requires period { 0 < frame.period }
    requires cycles { 0 < cycles }
    ensures { Shows clock (result ≡ pos 0)
        (λ before. AccSteps (span_of cycles frame) width signed before enable from old result) }
{
    if clock == 0 || takes(frame, cycles, length_of(frame, cycles) - 1, clock - 1) {
        0
    } else {
        added(enable, from, old, width, signed)
    }
}

/// What a bridge shows at a clock.
fn bridge_value(frame: Frame, cycles: u32, live: u32, clock: u64, from: i128, old: i128) -> i128
    requires period { 0 < frame.period }
    requires cycles { 0 < cycles }
    ensures { Shows clock (result ≡ from)
        (λ before. BridgeSteps (span_of cycles frame) (live * cycles) (before + 1) from old result) }
{
    if clock == 0 || is_live(frame, cycles, live, clock) {
        from
    } else {
        old
    }
}

/// What a counter shows at a clock.
fn counter_value(frame: Frame, cycles: u32, clock: u64, old: i128) -> i128
    requires period { 0 < frame.period }
    requires cycles { 0 < cycles }
    ensures { Shows clock
        (result ≡ pos ((span_of cycles frame).start + (span_of cycles frame).length - 1))
        (λ before. CounterSteps (span_of cycles frame) old result) }
{
    if clock == 0 {
        first_count(frame, cycles)
    } else if old > 0 {
        old - 1
    } else {
        i128::from(length_of(frame, cycles) - 1)
    }
}

/// What a net shows at a clock, from the row of the clock before and the nets that it reads in the
/// same clock.
pub fn net_value(
    one: &Net,
    cycles: u32,
    clock: u64,
    old: i128,
    now: &[i128],
    next: &[i128],
    inputs: &[i128],
) -> i128
    requires word { IsWord one.now.width one.now.signed }
    requires cycles { 0 < cycles }
    requires kind { CanStep (length inputs.now) one.now.kind }
    requires there_now { All (λ net. net < length now.now) (reads one.now.kind) }
    requires there_next { All (λ net. net < length next.now) (reads one.now.kind) }
    ensures { NetGoes cycles clock (row_of inputs.now) (row_of now.now)
        (row_of next.now) one.now.width one.now.signed one.now.kind old result }
{
    let (width, signed) = (one.width, one.signed);
    match &one.kind {
        NetKind::Comb { op, args } => comb_value(*op, args.as_slice(), next, inputs, width, signed),
        NetKind::Reg {
            frame,
            slot,
            first,
            from,
        } => {
            if clock == 0 {
                return *first;
            }
            register_value(*frame, cycles, *slot, clock - 1, now[*from as usize], old)
        }
        NetKind::EnReg {
            frame,
            enable,
            reset,
            first,
            from,
        } => {
            let allowed = now[*enable as usize];
            let offered = now[*from as usize];
            enabled_register_value(*frame, cycles, *reset, *first, clock, allowed, offered, old)
        }
        NetKind::Acc {
            frame,
            enable,
            from,
        } => {
            let allowed = now[*enable as usize];
            let offered = now[*from as usize];
            accumulator_value(*frame, cycles, clock, allowed, offered, old, width, signed)
        }
        NetKind::Bridge { frame, live, from } => {
            bridge_value(*frame, cycles, *live, clock, next[*from as usize], old)
        }
        NetKind::Unit { left, right } => {
            let (left, right) = (next[*left as usize], next[*right as usize]);
            word_product(left, right, width, signed)
        }
        NetKind::Counter { frame } => counter_value(*frame, cycles, clock, old),
    }
}
