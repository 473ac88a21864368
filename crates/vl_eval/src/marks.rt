ghost use Rattle.std.specs.Prelude.{◌≡◌, ◌<◌, false, length, slice_set};
ghost use Rattle.vl_eval.specs.inner.Reading.{AreAdded, HaveMarks, IsUnmarked};

/// The operations that stand together, of which one mark tells whether any is marked.
pub const BLOCK: usize = 64;

/// Which operations are to be worked out again: those that are marked in blocks that are.
#[derive(Drop)]
pub struct Marks {
    pub each: Vec<bool>,
    pub blocks: Vec<bool>,
}

/// Marks an operation of so many.
pub fn mark(marks: &mut Marks, number: usize)
    requires marks { HaveMarks (length marks.old.each.items) marks.old }
    requires within { number < length marks.old.each.items }
    ensures added { AreAdded marks.old marks.new }
    ensures marked { IsUnmarked marks.new number → ⊥ }
{
    marks.each[number] = true;
    marks.blocks[number / BLOCK] = true;
}

/// Takes the mark of an operation away.
pub fn unmark(marks: &mut Marks, number: usize)
    requires within { number < length marks.old.each.items }
    ensures each { marks.new.each.items ≡ slice_set marks.old.each.items number false }
    ensures blocks { marks.new.blocks.items ≡ marks.old.blocks.items }
{
    marks.each[number] = false;
}

/// Takes the mark of a block away.
pub fn unmark_block(marks: &mut Marks, block: usize)
    requires within { block < length marks.old.blocks.items }
    ensures each { marks.new.each.items ≡ marks.old.each.items }
    ensures blocks { marks.new.blocks.items ≡ slice_set marks.old.blocks.items block false }
{
    marks.blocks[block] = false;
}
