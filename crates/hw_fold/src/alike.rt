//! Whether two nets do the same on nets with the same roots.
ghost use Rattle.std.specs.Prelude.{◌≡◌, ◌<◌, All, true, map, length};
ghost use Rattle.hw_net.specs.Netlist.{reads};
ghost use Rattle.hw_refine.specs.Redirects.{redirected};
ghost use Rattle.hw_renumber.specs.Renumbered.{place_in};

use hw_net::{NetKind, NetOp};

/// Whether two lists name nets with the same roots, one by one.
fn are_alike(one: &[u32], other: &[u32], roots: &[u32]) -> bool
    requires one { All (λ k. k < length roots.now) one.now }
    requires other { All (λ k. k < length roots.now) other.now }
    ensures { result ≡ true → map (place_in roots.now) one.now ≡ map (place_in roots.now) other.now }
{
    if one.len() != other.len() {
        return false;
    }
    for i in 0..one.len() {
        if roots[one[i] as usize] != roots[other[i] as usize] {
            return false;
        }
    }
    true
}

/// Whether an operation is the other and no multiplication.
fn is_op(one: NetOp, other: NetOp) -> bool
    ensures { result ≡ true → one ≡ other }
{
    match (one, other) {
        (NetOp::Input(a), NetOp::Input(b)) => a == b,
        (NetOp::Const(a), NetOp::Const(b)) => a == b,
        (NetOp::ShiftUp(a), NetOp::ShiftUp(b)) => a == b,
        (NetOp::ShiftDown(a), NetOp::ShiftDown(b)) => a == b,
        (
            NetOp::Slice { high, low },
            NetOp::Slice {
                high: top,
                low: end,
            },
        ) => { high == top && low == end }
        (NetOp::Resize, NetOp::Resize) => true,
        (NetOp::Add, NetOp::Add) => true,
        (NetOp::Subtract, NetOp::Subtract) => true,
        (NetOp::Negate, NetOp::Negate) => true,
        (NetOp::And, NetOp::And) => true,
        (NetOp::Or, NetOp::Or) => true,
        (NetOp::Xor, NetOp::Xor) => true,
        (NetOp::Not, NetOp::Not) => true,
        (NetOp::Less, NetOp::Less) => true,
        (NetOp::Equal, NetOp::Equal) => true,
        (NetOp::Choose, NetOp::Choose) => true,
        _ => false,
    }
}

/// Whether two nets are one operation, no multiplication, on nets with the same roots.
fn are_operations_alike(one: &NetKind, other: &NetKind, roots: &[u32]) -> bool
    requires one { All (λ k. k < length roots.now) (reads one.now) }
    requires other { All (λ k. k < length roots.now) (reads other.now) }
    ensures { result ≡ true
        → redirected (place_in roots.now) one.now ≡ redirected (place_in roots.now) other.now }
{
    match (one, other) {
        (
            NetKind::Comb { op, args },
            NetKind::Comb {
                op: second,
                args: others,
            },
        ) => { is_op(*op, *second) && are_alike(args.as_slice(), others.as_slice(), roots) }
        _ => false,
    }
}

/// Whether two nets are one register behind nets with the same root.
fn are_registers_alike(one: &NetKind, other: &NetKind, roots: &[u32]) -> bool
    requires one { All (λ k. k < length roots.now) (reads one.now) }
    requires other { All (λ k. k < length roots.now) (reads other.now) }
    ensures { result ≡ true
        → redirected (place_in roots.now) one.now ≡ redirected (place_in roots.now) other.now }
{
    match (one, other) {
        (
            NetKind::Reg {
                frame,
                slot,
                first,
                from,
            },
            NetKind::Reg {
                frame: second_frame,
                slot: second_slot,
                first: second_first,
                from: source,
            },
        ) => {
            *frame == *second_frame
                && *slot == *second_slot
                && *first == *second_first
                && roots[*from as usize] == roots[*source as usize]
        }
        _ => false,
    }
}

/// Whether two nets are one register with an enable, behind nets with the same roots.
fn are_enabled_registers_alike(one: &NetKind, other: &NetKind, roots: &[u32]) -> bool
    requires one { All (λ k. k < length roots.now) (reads one.now) }
    requires other { All (λ k. k < length roots.now) (reads other.now) }
    ensures { result ≡ true
        → redirected (place_in roots.now) one.now ≡ redirected (place_in roots.now) other.now }
{
    match (one, other) {
        (
            NetKind::EnReg {
                frame,
                enable,
                reset,
                first,
                from,
            },
            NetKind::EnReg {
                frame: second_frame,
                enable: second_enable,
                reset: second_reset,
                first: second_first,
                from: source,
            },
        ) => {
            *frame == *second_frame
                && *reset == *second_reset
                && *first == *second_first
                && roots[*enable as usize] == roots[*second_enable as usize]
                && roots[*from as usize] == roots[*source as usize]
        }
        _ => false,
    }
}

/// Whether two nets are one bridge behind nets with the same root.
fn are_bridges_alike(one: &NetKind, other: &NetKind, roots: &[u32]) -> bool
    requires one { All (λ k. k < length roots.now) (reads one.now) }
    requires other { All (λ k. k < length roots.now) (reads other.now) }
    ensures { result ≡ true
        → redirected (place_in roots.now) one.now ≡ redirected (place_in roots.now) other.now }
{
    match (one, other) {
        (
            NetKind::Bridge { frame, live, from },
            NetKind::Bridge {
                frame: second_frame,
                live: second_live,
                from: source,
            },
        ) => {
            *frame == *second_frame
                && *live == *second_live
                && roots[*from as usize] == roots[*source as usize]
        }
        _ => false,
    }
}

/// Whether two nets are one Counter.
fn are_counters_alike(one: &NetKind, other: &NetKind) -> bool
    ensures { result ≡ true → one.now ≡ other.now }
{
    match (one, other) {
        (NetKind::Counter { frame }, NetKind::Counter { frame: second }) => *frame == *second,
        _ => false,
    }
}

/// Whether a net does what the other does on nets with the same roots, and multiplies nothing.
pub fn is_alike(one: &NetKind, other: &NetKind, roots: &[u32]) -> bool
    requires one { All (λ k. k < length roots.now) (reads one.now) }
    requires other { All (λ k. k < length roots.now) (reads other.now) }
    ensures { result ≡ true
        → redirected (place_in roots.now) one.now ≡ redirected (place_in roots.now) other.now }
{
    match one {
        NetKind::Comb { .. } => are_operations_alike(one, other, roots),
        NetKind::Reg { .. } => are_registers_alike(one, other, roots),
        NetKind::EnReg { .. } => are_enabled_registers_alike(one, other, roots),
        NetKind::Bridge { .. } => are_bridges_alike(one, other, roots),
        NetKind::Counter { .. } => are_counters_alike(one, other),
        NetKind::Acc { .. } | NetKind::Unit { .. } => false,
    }
}
