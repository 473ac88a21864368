ghost use Rattle.std.specs.Prelude.{◌≡◌, ◌<◌, AllPairs, length, nat_lt};
ghost use Rattle.dg_model.specs.Wired.{StandsBefore};
ghost use Rattle.hw_sched.specs.Level.{is_same_period as is_same_period_of};
ghost use Rattle.hw_sched.specs.inner.Greatest.{IsFirstInto, IsGreatest, IsLineFrom};

use dg_model::{Checked, Edge};

/// Whether two periods are the same.
pub fn is_same_period(period: Option<u32>, other: Option<u32>) -> bool
    ensures { result ≡ is_same_period_of period other }
{
    match (period, other) {
        (Some(period), Some(other)) => period == other,
        (Some(_), None) => false,
        (None, Some(_)) => false,
        (None, None) => true,
    }
}

/// The place of the first line into a block, or into the next block that has one.
pub fn first_into(edges: &[Edge], block: u32) -> usize
    requires { AllPairs StandsBefore edges.now }
    ensures { IsFirstInto edges.now block result }
{
    edges.partition_point(
        |edge: &Edge| -> bool
            ensures { result ≡ nat_lt edge.now.to block }
        { edge.to < block },
    )
}

/// The greatest depth of the blocks of a block's period from which lines lead to it.
pub fn best_of_lines(checked: &Checked, depths: &[u64], place: u32) -> u64
    requires there { place < length checked.now.diagram.blocks }
    requires size { length depths.now ≡ length checked.now.diagram.blocks }
    ensures { IsGreatest
        (IsLineFrom checked.now.diagram (length checked.now.diagram.edges) place)
        depths.now result }
{
    checked.keeps_rules();
    let own = checked.period(place);
    let edges = checked.diagram().edges.as_slice();
    let first = first_into(edges, place);
    let mut best = 0u64;
    for edge in &edges[first..] {
        let edge = *edge;
        if edge.to != place {
            return best;
        }
        if is_same_period(checked.period(edge.from), own) {
            best = best.max(depths[edge.from as usize]);
        }
    }
    best
}
