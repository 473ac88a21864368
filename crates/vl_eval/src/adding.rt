ghost use Rattle.std.specs.Prelude.{◌≡◌, ◌≤◌, ◌++◌, ◌∷◌, []};
ghost use Rattle.vl_eval.specs.inner.PlaceBits.{IfFine, IsBeside, IsExtended, Pushed};

use crate::code::Code;
use crate::operators::half_of;
use crate::ops::{OneOp, Op};
use vl_ast::mask_of;

/// Operations that are added, and whether memory or a number of 64 bits was wanting for some of
/// them.
#[derive(Drop)]
pub struct Additions {
    pub code: Code,
    pub wanting: bool,
}

/// Puts an operation at the end.
fn put(ops: &mut Additions, op: Op)
    ensures { IfFine ops.old ops.new (ops.new.code ≡ ops.old.code ++ op ∷ []) }
{
    if let Err(_refused) = ops.code.push(op) {
        ops.wanting = true;
    }
}

/// Adds an operation, and gives its place.
pub fn push(ops: &mut Additions, base: usize, op: Op) -> usize
    ensures { IfFine ops.old ops.new (Pushed base ops.old.code ops.new.code result op) }
{
    let Some(slot) = base.checked_add(ops.code.len()) else {
        // word: words and operations are counted in 64 bits
        ops.wanting = true;
        return 0;
    };
    put(ops, op);
    slot
}

/// The place of a word, extended by its sign bit to a context with sign.
pub fn extend(ops: &mut Additions, base: usize, part: usize, from: u32, to: u32) -> usize
    requires longer { from ≤ to }
    requires most { to ≤ 128 }
    ensures { IfFine ops.old ops.new
        (IsExtended base ops.old.code ops.new.code result part from to) }
{
    if from == to {
        return part;
    }
    let half = half_of(from);
    let fill = mask_of(to) - mask_of(from);
    push(ops, base, Op::One(OneOp::Extended { half, fill }, part))
}

/// One operand with so many bits on the right of another; where that has none, the operand itself.
pub fn beside(
    ops: &mut Additions,
    base: usize,
    left: usize,
    left_length: u32,
    right: usize,
    right_length: u32,
) -> usize
    ensures { IfFine ops.old ops.new (IsBeside base ops.old.code ops.new.code result left
        left_length right right_length) }
{
    if left_length == 0 {
        return right;
    }
    push(
        ops,
        base,
        Op::Beside {
            left,
            right,
            places: right_length,
        },
    )
}
