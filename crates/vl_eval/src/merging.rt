ghost use Rattle.std.specs.Prelude.{◌≡◌, ◌<◌, ◌≤◌, ◌+◌, ◌^◌, IfOk, IsTrue, length};
ghost use Rattle.vl_eval.specs.inner.Merge.{AreMerged, IsPutOnce};
ghost use Rattle.vl_eval.specs.inner.Ops.{IsOrdered};

use crate::arranging::renamed_op;
use crate::code::Code;
use crate::leveling::kind_of;
use crate::ops::{OneOp, Op, TwoOp};
use crate::sweeping::low;
use fx_io::OutOfMemory;
use std::alloc::Global;

/// Odd, with its bits far from a pattern.
const MULTIPLIER: u64 = 0x9E37_79B9_7F4A_7C15;

/// Operations without repeats, and by the number of each operation that there was its place among them.
#[derive(Drop)]
pub struct Merged {
    pub ops: Code,
    pub places: Vec<usize>,
}

/// Whether two operations on one value do the same.
fn is_same_of_one(one: OneOp, other: OneOp) -> bool
    ensures { IsTrue result → one ≡ other }
{
    match one {
        OneOp::Extended { half, fill } => match other {
            OneOp::Extended { half: h, fill: f } => half == h && fill == f,
            _ => false,
        },
        OneOp::Select { low, mask } => match other {
            OneOp::Select { low: l, mask: m } => low == l && mask == m,
            _ => false,
        },
        OneOp::IsZero => matches!(other, OneOp::IsZero),
        _ => false,
    }
}

/// Whether two operations on two values do the same.
fn is_same_of_two(one: TwoOp, other: TwoOp) -> bool
    ensures { IsTrue result → one ≡ other }
{
    match one {
        TwoOp::And => matches!(other, TwoOp::And),
        TwoOp::Or => matches!(other, TwoOp::Or),
        TwoOp::Equal => matches!(other, TwoOp::Equal),
        TwoOp::NotEqual => matches!(other, TwoOp::NotEqual),
        TwoOp::Both => matches!(other, TwoOp::Both),
        TwoOp::Either => matches!(other, TwoOp::Either),
        TwoOp::Add(mask) => match other {
            TwoOp::Add(m) => mask == m,
            _ => false,
        },
        TwoOp::Subtract(mask) => match other {
            TwoOp::Subtract(m) => mask == m,
            _ => false,
        },
        TwoOp::Less(half) => match other {
            TwoOp::Less(h) => half == h,
            _ => false,
        },
        TwoOp::LessEqual(half) => match other {
            TwoOp::LessEqual(h) => half == h,
            _ => false,
        },
        _ => false,
    }
}

/// Whether two operations are seen to be the same: those that texts repeat, and no registers.
fn is_same(one: Op, other: Op) -> bool
    ensures { IsTrue result → one ≡ other }
{
    match one {
        Op::Constant(bits) => match other {
            Op::Constant(b) => bits == b,
            _ => false,
        },
        Op::One(of, part) => match other {
            Op::One(o, p) => part == p && is_same_of_one(of, o),
            _ => false,
        },
        Op::Two(of, left, right) => match other {
            Op::Two(o, l, r) => left == l && right == r && is_same_of_two(of, o),
            _ => false,
        },
        Op::Beside {
            left,
            right,
            places,
        } => match other {
            Op::Beside {
                left: l,
                right: r,
                places: p,
            } => left == l && right == r && places == p,
            _ => false,
        },
        _ => false,
    }
}

/// A number mixed into others.
fn mixed(hash: u64, number: u64) -> u64 {
    let mixed = (hash ^ number).wrapping_mul(MULTIPLIER);
    mixed ^ (mixed >> 29)
}

/// A number that is equal for equal operations, and seldom for others.
fn hash_of(op: Op) -> u64 {
    let hash = kind_of(op);
    match op {
        Op::Constant(bits) => mixed(mixed(hash, low(bits >> 64)), low(bits)),
        Op::One(OneOp::Select { low, .. }, part) => {
            mixed(mixed(hash, u64::from(low)), part as u64)
        }
        Op::One(_, part) => mixed(hash, part as u64),
        Op::Two(_, left, right) | Op::Beside { left, right, .. } => {
            mixed(mixed(hash, left as u64), right as u64)
        }
        Op::Choose {
            test,
            chosen,
            other,
        } => mixed(mixed(mixed(hash, test as u64), chosen as u64), other as u64),
        Op::Next(register) => mixed(hash, register.kept as u64),
    }
}

/// Puts an operation behind others, unless the one that was put last into its bucket is the same, and
/// gives its place.
fn put_once(code: &mut Code, buckets: &mut [u32], base: usize, op: Op) -> Result<usize, OutOfMemory>
    requires some { 0 < length buckets.old }
    requires few { length code.old < 2 ^ 32 }
    requires end { base + length code.old < 2 ^ 64 }
    ensures put { IfOk result (IsPutOnce base code.old code.new op) }
    ensures long { length buckets.new ≡ length buckets.old }
{
    let bucket = (hash_of(op) % buckets.len() as u64) as usize;
    let earlier = buckets[bucket] as usize;
    if earlier < code.len() && is_same(code.get(earlier), op) {
        return Ok(base + earlier);
    }
    let number = code.len();
    code.push(op)?;
    buckets[bucket] = number as u32;
    Ok(base + number)
}

/// The operations without those that do what an earlier one does.
pub fn merge(alloc: Global, base: usize, ops: &Code) -> Result<Merged, OutOfMemory>
    requires ordered { IsOrdered base ops.now }
    requires few { length ops.now ≤ 2 ^ 20 }
    requires end { base + length ops.now < 2 ^ 64 }
    ensures { IfOk result (λ united. AreMerged base (length ops.now) ops.now united.ops
        united.places.items) }
{
    let mut code = Code::new(alloc);
    let mut places = Vec::new(alloc);
    let mut buckets = vec![in alloc; 0u32; ops.len() + 1]?;
    for number in 0..ops.len() {
        let op = renamed_op(ops.get(number), base, places.as_slice());
        let place = put_once(&mut code, buckets.as_mut_slice(), base, op)?;
        places.push(place)?;
    }
    Ok(Merged { ops: code, places })
}
