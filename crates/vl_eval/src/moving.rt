ghost use Rattle.std.specs.Prelude.{◌≡◌, ◌≢◌, ◌<◌, ◌≤◌, ◌+◌, ◌^◌, ℕ, Contains, length, slice_index};
ghost use Rattle.vl_eval.specs.declared.plan.Capture.{Capture};
ghost use Rattle.vl_eval.specs.inner.Edges.{IsPut, IsTaken};
ghost use Rattle.vl_eval.specs.inner.Moves.{CanMove, IsMoved};
ghost use Rattle.vl_eval.specs.inner.Ops.{IsOrdered};
ghost use Rattle.vl_eval.specs.inner.Reading.{AreReaders, AreSpared, HaveMarks};

use crate::marks::Marks;
use crate::plan::{Capture, Plan};
use crate::readers::Readers;
use crate::sparing::{sweep_marked, write};

/// Captures what the registers take: each value at a `from` goes to its `to`.
fn capture(captures: &[Capture], values: &mut [u128])
    requires within { (c : Capture) → Contains captures.now c → (c.from < length values.old)
        × (c.to < length values.old) }
    requires apart { (c d : Capture) → Contains captures.now c → Contains captures.now d
        → c.to ≢ d.from }
    ensures { IsTaken captures.now values.old values.new }
{
    for capture in captures {
        let Capture { from, to } = *capture;
        values[to] = values[from];
    }
}

/// Puts the bits of the input ports to their places.
fn put(places: &[usize], bits: &[u128], values: &mut [u128])
    requires count { length bits.now ≡ length places.now }
    requires within { (k : ℕ) → k < length places.now
        → slice_index places.now k < length values.old }
    requires apart { (i j : ℕ) → i < j → j < length places.now
        → slice_index places.now i ≢ slice_index places.now j }
    ensures { IsPut places.now bits.now values.old values.new }
{
    for k in 0..places.len() {
        values[places[k]] = bits[k];
    }
}

/// Moves a row on: registers and inputs change, and all operations are worked out.
pub fn move_all(plan: &Plan, inputs: &[u128], values: &mut [u128])
    requires { CanMove plan.now inputs.now values.old }
    ensures { IsMoved plan.now inputs.now values.old values.new }
{
    capture(plan.arranged.captures.as_slice(), values);
    put(plan.inputs.as_slice(), inputs, values);
    plan.arranged.ops.sweep(plan.base, plan.constants, values);
}

/// Captures what the registers take, as `capture` does, and marks what reads those that change.
fn capture_marked(plan: &Plan, readers: &Readers, marks: &mut Marks, values: &mut [u128])
    requires marks { HaveMarks (length plan.now.arranged.ops) marks.old }
    requires readers { AreReaders plan.now.base (length plan.now.arranged.ops)
        plan.now.arranged.ops readers.now }
    requires room { length values.old ≡ plan.now.base + length plan.now.arranged.ops }
    requires ordered { IsOrdered plan.now.base plan.now.arranged.ops }
    requires within { (c : Capture) → Contains plan.now.arranged.captures.items c
        → (plan.now.base ≤ c.from) × (c.from < length values.old) × (c.to < plan.now.base) }
    requires spared { AreSpared plan.now.base 0 plan.now.arranged.ops marks.old values.old }
    ensures taken { IsTaken plan.now.arranged.captures.items values.old values.new }
    ensures spared { AreSpared plan.now.base 0 plan.now.arranged.ops marks.new values.new }
    ensures marks { HaveMarks (length plan.now.arranged.ops) marks.new }
{
    for capture in plan.arranged.captures.as_slice() {
        let Capture { from, to } = *capture;
        let value = values[from];
        write(readers, marks, values, to, value);
    }
}

/// Puts the bits of the input ports to their places, as `put` does, and marks what reads those that
/// change.
fn put_marked(plan: &Plan, readers: &Readers, marks: &mut Marks, bits: &[u128], values: &mut [u128])
    requires marks { HaveMarks (length plan.now.arranged.ops) marks.old }
    requires readers { AreReaders plan.now.base (length plan.now.arranged.ops)
        plan.now.arranged.ops readers.now }
    requires room { length values.old ≡ plan.now.base + length plan.now.arranged.ops }
    requires ordered { IsOrdered plan.now.base plan.now.arranged.ops }
    requires count { length bits.now ≡ length plan.now.inputs.items }
    requires within { (k : ℕ) → k < length plan.now.inputs.items
        → slice_index plan.now.inputs.items k < plan.now.base }
    requires apart { (i j : ℕ) → i < j → j < length plan.now.inputs.items
        → slice_index plan.now.inputs.items i ≢ slice_index plan.now.inputs.items j }
    requires spared { AreSpared plan.now.base 0 plan.now.arranged.ops marks.old values.old }
    ensures put { IsPut plan.now.inputs.items bits.now values.old values.new }
    ensures spared { AreSpared plan.now.base 0 plan.now.arranged.ops marks.new values.new }
    ensures marks { HaveMarks (length plan.now.arranged.ops) marks.new }
{
    let places = plan.inputs.as_slice();
    for k in 0..places.len() {
        write(readers, marks, values, places[k], bits[k]);
    }
}

/// Moves a row on, as `move_all` does, by what changes alone, and tells how many operations were worked
/// out.
pub fn move_marked(
    plan: &Plan,
    readers: &Readers,
    marks: &mut Marks,
    inputs: &[u128],
    values: &mut [u128],
) -> usize
    requires can { CanMove plan.now inputs.now values.old }
    requires few { length plan.now.arranged.ops ≤ 2 ^ 20 }
    requires marks { HaveMarks (length plan.now.arranged.ops) marks.old }
    requires readers { AreReaders plan.now.base (length plan.now.arranged.ops)
        plan.now.arranged.ops readers.now }
    ensures moved { IsMoved plan.now inputs.now values.old values.new }
    ensures marks { HaveMarks (length plan.now.arranged.ops) marks.new }
{
    capture_marked(plan, readers, marks, values);
    put_marked(plan, readers, marks, inputs, values);
    sweep_marked(&plan.arranged.ops, readers, marks, plan.base, values)
}
