//! An order in which each net stands after those that it reads in the same clock.
ghost use Rattle.std.specs.Prelude.{◌≡◌, ◌+◌, ◌<◌, length};
ghost use Rattle.std.specs.Prelude.{OnOk, IfOk, All, true, false, Option, Some};
ghost use Rattle.std.specs.Prelude.{None, IsSome, ℕ, ◌↔◌, IsTrue};
ghost use Rattle.hw_net.specs.Netlist.{IsNetlist, IsRanked, reads, reads_now};
ghost use Rattle.hw_order.specs.Order.{IsOrder};
ghost use Rattle.hw_order.specs.inner.NetOrder.{AreReadNow, IsPlaced, IsGrowing, Visits, Serves, Grows};
ghost use Rattle.hw_order.specs.inner.NetOrder.{IsReader, IsLinked, IsClosed, place_of};

use fx_io::{OutOfMemory, Sizes};
use hw_net::{Net, NetKind, Netlist};
use std::alloc::Global;

/// Puts a reader behind those of a net.
fn link(readers: &mut [Sizes], read: u32, reader: u32) -> Result<(), OutOfMemory>
    requires { read < length readers.old }
    ensures grows { OnOk result (Grows readers.old readers.new) }
    ensures knows { OnOk result (IsReader readers.new read reader) }
{
    readers[read as usize].push(reader)
}

/// Puts a reader behind those of each net of a list.
fn link_all(readers: &mut [Sizes], reads: &[u32], reader: u32) -> Result<(), OutOfMemory>
    requires { All (λ read. read < length readers.old) reads.now }
    ensures grows { OnOk result (Grows readers.old readers.new) }
    ensures knows { OnOk result (All (λ read. IsReader readers.new read reader) reads.now) }
{
    for read in reads {
        link(readers, *read, reader)?;
    }
    Ok(())
}

/// Puts a net behind the readers of each net that it reads in the same clock.
fn link_net(readers: &mut [Sizes], one: &Net, reader: u32) -> Result<(), OutOfMemory>
    requires { All (λ read. read < length readers.old) (reads_now one.now.kind) }
    ensures grows { OnOk result (Grows readers.old readers.new) }
    ensures knows { OnOk result
        (All (λ read. IsReader readers.new read reader) (reads_now one.now.kind)) }
{
    match &one.kind {
        NetKind::Comb { op: _, args } => link_all(readers, args.as_slice(), reader),
        NetKind::Bridge { from, .. } => link_all(readers, &[*from], reader),
        NetKind::Unit { left, right } => link_all(readers, &[*left, *right], reader),
        NetKind::Reg { .. }
        | NetKind::EnReg { .. }
        | NetKind::Acc { .. }
        | NetKind::Counter { .. } => Ok(()),
    }
}

/// Whether a net has its place.
fn is_placed(ranks: &[Option<u32>], net: u32) -> bool
    requires { net < length ranks.now }
    ensures yes { result ≡ true → IsPlaced ranks.now net }
    ensures no { result ≡ false → ¬ IsPlaced ranks.now net }
{
    match ranks[net as usize] {
        Some(_) => true,
        None => false,
    }
}

/// Whether all nets of a list have their places.
fn all_placed(ranks: &[Option<u32>], reads: &[u32]) -> bool
    requires { All (λ read. read < length ranks.now) reads.now }
    ensures yes { result ≡ true → All (IsPlaced ranks.now) reads.now }
    ensures no { result ≡ false → ¬ All (IsPlaced ranks.now) reads.now }
{
    for read in reads {
        if !is_placed(ranks, *read) {
            return false;
        }
    }
    true
}

/// Whether the nets that a net reads in the same clock have their places.
fn is_ready(ranks: &[Option<u32>], one: &Net) -> bool
    requires { All (λ read. read < length ranks.now) (reads_now one.now.kind) }
    ensures yes { result ≡ true → All (IsPlaced ranks.now) (reads_now one.now.kind) }
    ensures no { result ≡ false → ¬ All (IsPlaced ranks.now) (reads_now one.now.kind) }
{
    match &one.kind {
        NetKind::Comb { op: _, args } => all_placed(ranks, args.as_slice()),
        NetKind::Bridge { from, .. } => all_placed(ranks, &[*from]),
        NetKind::Unit { left, right } => all_placed(ranks, &[*left, *right]),
        NetKind::Reg { .. }
        | NetKind::EnReg { .. }
        | NetKind::Acc { .. }
        | NetKind::Counter { .. } => true,
    }
}

/// Gives a net its place, if all that it reads in the same clock have theirs.
fn visit(
    nets: &[Net],
    order: &mut Vec<u32>,
    ranks: &mut [Option<u32>],
    k: u32,
) -> Result<(), OutOfMemory>
    requires there { AreReadNow nets.now }
    requires growing { IsGrowing nets.now order.old.items ranks.old }
    ensures visited { OnOk result
        (Visits nets.now order.old.items order.new.items ranks.old ranks.new) }
    ensures placed { OnOk result (Serves nets.now ranks.old ranks.new k) }
{
    if k as usize >= nets.len() {
        return Ok(());
    }
    if is_placed(ranks, k) {
        return Ok(());
    }
    if !is_ready(ranks, &nets[k as usize]) {
        return Ok(());
    }
    let Ok(rank) = u32::try_from(order.len()) else {
        // word: a place in the order, of 32 bits
        return Err(OutOfMemory);
    };
    order.push(k)?;
    ranks[k as usize] = Some(rank);
    Ok(())
}

/// Puts each net behind the readers of those that it reads in the same clock.
fn link_nets(readers: &mut [Sizes], nets: &[Net]) -> Result<(), OutOfMemory>
    requires there { AreReadNow nets.now }
    requires size { length readers.old ≡ length nets.now }
    ensures { OnOk result (IsLinked nets.now readers.new (length nets.now)) }
{
    for k in 0..nets.len() {
        let Ok(reader) = u32::try_from(k) else {
            // word: the number of a net, of 32 bits
            return Err(OutOfMemory);
        };
        link_net(readers, &nets[k], reader)?;
    }
    Ok(())
}

/// So many lists without an item.
fn empty_lists(alloc: Global, count: usize) -> Result<Vec<Sizes>, OutOfMemory>
    ensures { IfOk result (λ lists. length lists.items ≡ count) }
{
    let mut lists: Vec<Sizes> = Vec::new(alloc);
    for k in 0..count {
        lists.push(Sizes::new(alloc))?;
    }
    Ok(lists)
}

/// Gives each net of a list its place that can have one.
fn visit_all(
    nets: &[Net],
    order: &mut Vec<u32>,
    ranks: &mut [Option<u32>],
    list: &[u32],
) -> Result<(), OutOfMemory>
    requires there { AreReadNow nets.now }
    requires growing { IsGrowing nets.now order.old.items ranks.old }
    ensures visited { OnOk result
        (Visits nets.now order.old.items order.new.items ranks.old ranks.new) }
    ensures placed { OnOk result (All (Serves nets.now ranks.old ranks.new) list.now) }
{
    for k in list {
        visit(nets, order, ranks, *k)?;
    }
    Ok(())
}

/// Gives its place to each net that reads none in the same clock, and to those that can follow.
fn begin(nets: &[Net], order: &mut Vec<u32>, ranks: &mut [Option<u32>]) -> Result<(), OutOfMemory>
    requires there { AreReadNow nets.now }
    requires growing { IsGrowing nets.now order.old.items ranks.old }
    ensures growing { OnOk result (IsGrowing nets.now order.new.items ranks.new) }
    ensures closed { OnOk result (IsClosed nets.now ranks.new 0 (length nets.now)) }
{
    for k in 0..nets.len() {
        let Ok(number) = u32::try_from(k) else {
            // word: the number of a net, of 32 bits
            return Err(OutOfMemory);
        };
        visit(nets, order, ranks, number)?;
    }
    Ok(())
}

/// Goes along the order as it grows and gives the readers of each net their places.
fn spread(
    nets: &[Net],
    readers: &[Sizes],
    order: &mut Vec<u32>,
    ranks: &mut [Option<u32>],
) -> Result<(), OutOfMemory>
    requires there { AreReadNow nets.now }
    requires size { length readers.now ≡ length nets.now }
    requires linked { IsLinked nets.now readers.now (length nets.now) }
    requires growing { IsGrowing nets.now order.old.items ranks.old }
    requires closed { IsClosed nets.now ranks.old 0 (length nets.now) }
    ensures growing { OnOk result (IsGrowing nets.now order.new.items ranks.new) }
    ensures closed { OnOk result
        (IsClosed nets.now ranks.new (length order.new.items) (length nets.now)) }
{
    let mut done = 0;
    while done < order.len() {
        let list = readers[order[done] as usize].as_slice();
        visit_all(nets, order, ranks, list)?;
        done += 1;
    }
    Ok(())
}

/// Gives the nets places in an order in which each stands after those that it reads in the same clock,
/// as far as there is one, and returns the nets in it.
fn rank_nets(
    alloc: Global,
    nets: &[Net],
    readers: &mut [Sizes],
    ranks: &mut [Option<u32>],
) -> Result<Vec<u32>, OutOfMemory>
    requires there { AreReadNow nets.now }
    requires readers { length readers.old ≡ length nets.now }
    requires ranks { length ranks.old ≡ length nets.now }
    requires fresh { (k : ℕ) → place_of ranks.old k ≡ None }
    ensures growing { IfOk result (λ order. IsGrowing nets.now order.items ranks.new) }
    ensures closed { IfOk result (λ order.
        IsClosed nets.now ranks.new (length order.items) (length nets.now)) }
{
    link_nets(readers, nets)?;
    let mut order: Vec<u32> = Vec::new(alloc);
    begin(nets, &mut order, ranks)?;
    spread(nets, readers, &mut order, ranks)?;
    Ok(order)
}

/// All nets in an order in which each stands after those that it reads in the same clock.
pub fn order_of(alloc: Global, net: &Netlist) -> Result<Vec<u32>, OutOfMemory>
    requires { IsNetlist net.now }
    ensures { IfOk result (λ order. IsOrder net.now.nets order.items) }
{
    let nets = net.nets();
    let mut readers = empty_lists(alloc, nets.len())?;
    let mut ranks: Vec<Option<u32>> = vec![in alloc; None; nets.len()]?;
    rank_nets(alloc, nets, readers.as_mut_slice(), ranks.as_mut_slice())
}

/// Whether all places are there.
fn are_some(ranks: &[Option<u32>]) -> bool
    ensures { IsTrue result ↔ All IsSome ranks.now }
{
    ranks.iter().all(|rank| rank.is_some())
}

/// Whether all nets get places.
fn are_ordered(
    alloc: Global,
    nets: &[Net],
    readers: &mut [Sizes],
    ranks: &mut [Option<u32>],
) -> Result<bool, OutOfMemory>
    requires there { AreReadNow nets.now }
    requires readers { length readers.old ≡ length nets.now }
    requires ranks { length ranks.old ≡ length nets.now }
    requires fresh { (k : ℕ) → place_of ranks.old k ≡ None }
    ensures { IfOk result (λ is. IsTrue is ↔ ((rank : ℕ → ℕ) × IsRanked nets.now rank)) }
{
    let _order = rank_nets(alloc, nets, readers, ranks)?;
    Ok(are_some(ranks))
}

/// Whether no net reaches itself in one clock.
pub fn is_ranked(alloc: Global, nets: &[Net]) -> Result<bool, OutOfMemory>
    requires { All (λ one. All (λ read. read < length nets.now) (reads one.kind)) nets.now }
    ensures { IfOk result (λ is. IsTrue is ↔ ((rank : ℕ → ℕ) × IsRanked nets.now rank)) }
{
    let mut readers = empty_lists(alloc, nets.len())?;
    let mut ranks: Vec<Option<u32>> = vec![in alloc; None; nets.len()]?;
    are_ordered(alloc, nets, readers.as_mut_slice(), ranks.as_mut_slice())
}
