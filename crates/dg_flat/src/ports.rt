ghost use Rattle.std.specs.Prelude.{◌≡◌, ℕ, ◌<◌, true, List, length, MatchOption};
ghost use Rattle.dg_model.specs.declared.nested.NestedBlock.{NestedBlock};
ghost use Rattle.dg_flat.specs.Parts.{is_subsystem};
ghost use Rattle.dg_flat.specs.inner.Ports.{ports_of, ports_at, is_past as is_past_of, lacks_output as lacks_output_of, lacks_end as lacks_end_of};
ghost use Rattle.dg_flat.specs.inner.Systems.{AreSystems};

use crate::numbering::Side;
use crate::systems::{Systems, slot};
use dg_model::{NestedBlock, NestedLine, Part, Target};

/// The number is none of those from 1 to a count.
fn is_past(number: u32, count: u32) -> bool
    ensures { result ≡ is_past_of number count }
{
    number == 0 || number > count
}

/// How many ports of this side a part has; none where it is a subsystem, which has those inside.
fn own_ports(side: Side, part: &Part) -> Option<u32>
    ensures { (blocks : List NestedBlock) (place : ℕ) → MatchOption result
        (is_subsystem part.now ≡ true) (λ own. own ≡ ports_of blocks side place part.now) }
{
    match (side, part) {
        (Side::In, Part::Plain(block)) => Some(block.inputs),
        (Side::Out, Part::Plain(block)) => Some(block.outputs),
        (Side::In, Part::Out(_, _)) | (Side::Out, Part::In(_, _)) => Some(1),
        (Side::In, Part::In(_, _) | Part::Enable { .. })
        | (Side::Out, Part::Out(_, _) | Part::Enable { .. }) => Some(0),
        (Side::In | Side::Out, Part::SubSystem) => None,
    }
}

impl Systems {
    /// How many ports of this side the block at a place has.
    pub fn ports(&self, blocks: &[NestedBlock], side: Side, place: u32) -> u32
        requires systems { AreSystems blocks.now self.now }
        requires there { place < length blocks.now }
        ensures { result ≡ ports_at blocks.now side place }
    {
        match own_ports(side, &blocks[place as usize].part) {
            Some(own) => own,
            None => match side {
                Side::In => self.ins.count(Some(place)),
                Side::Out => self.outs.count(Some(place)),
            },
        }
    }

    /// Whether a line leaves from a port that isn't there.
    pub fn lacks_output(&self, blocks: &[NestedBlock], line: NestedLine) -> bool
        requires systems { AreSystems blocks.now self.now }
        requires there { line.from < length blocks.now }
        ensures { result ≡ lacks_output_of blocks.now line }
    {
        is_past(line.from_port, self.ports(blocks, Side::Out, line.from))
    }

    /// Whether a line ends at a port of a block that isn't there.
    pub fn lacks_end(&self, blocks: &[NestedBlock], place: u32, target: Target) -> bool
        requires systems { AreSystems blocks.now self.now }
        requires there { place < length blocks.now }
        ensures { result ≡ lacks_end_of blocks.now place target }
    {
        match target {
            Target::Port(port) => is_past(port, self.ports(blocks, Side::In, place)),
            Target::Enable => self.enables[slot(Some(place))].is_none(),
        }
    }
}
