ghost use Rattle.std.specs.Prelude.{◌≡◌, ◌+◌, ℕ, OnOk, IfOk, length};
ghost use Rattle.hw_net.specs.Emittable.{IsEmittable};
ghost use Rattle.hw_net.specs.Netlist.{IsNetlist};
ghost use Rattle.hw_net.specs.Products.{places};
ghost use Rattle.hw_refine.specs.Refines.{Refines};
ghost use Rattle.hw_order.specs.Order.{IsOrder};
ghost use Rattle.hw_fold.specs.inner.Fold.{AreSettled, CanFold, IsFolded, IsOpen};
ghost use Rattle.hw_fold.specs.inner.Roots.{fold_of, ArePinned, IsFolding};

use crate::key::Key;
use crate::pinned::pin;
use crate::roots::stand_in;
use fx_io::OutOfMemory;
use hw_net::{Net, Netlist};
use hw_order::order_of;
use hw_refine::represents_refine;
use hw_renumber::{renumbered, renumbered_emits, renumbered_runs};
use std::alloc::Global;
use std::collections::BTreeMap;

/// Finds what stands for a net that is not done yet.
fn settle(
    nets: &[Net],
    own: &[bool],
    alone: &[bool],
    roots: &mut [u32],
    done: &mut [bool],
    known: &mut BTreeMap<Key, u32>,
    k: u32,
) -> Result<(), OutOfMemory>
    requires ready { IsOpen nets.now own.now alone.now roots.old done.old k }
    ensures folding { OnOk result ((rank : ℕ → ℕ)
        → IsFolding rank (rank k) (fold_of nets.now alone.now roots.old done.old)
        → IsFolding rank (rank k + 1) (fold_of nets.now alone.now roots.new done.new)) }
    ensures pinned { OnOk result (
        ArePinned own.now (fold_of nets.now alone.now roots.old done.old)
        → ArePinned own.now (fold_of nets.now alone.now roots.new done.new)) }
{
    let other = stand_in(nets, own, alone, roots, done, known, k)?;
    roots[k as usize] = other;
    done[k as usize] = true;
    Ok(())
}

/// Finds what stands for each net, in an order in which each stands behind what it reads in its
/// clock.
fn settle_all(
    alloc: Global,
    nets: &[Net],
    own: &[bool],
    alone: &[bool],
    roots: &mut [u32],
    done: &mut [bool],
    order: &[u32],
) -> Result<(), OutOfMemory>
    requires order { IsOrder nets.now order.now }
    requires begun { CanFold nets.now own.now alone.now roots.old done.old }
    ensures { OnOk result (AreSettled nets.now order.now own.now
        (fold_of nets.now alone.now roots.new done.new)) }
{
    let mut known: BTreeMap<Key, u32> = BTreeMap::new(alloc);
    for k in order {
        settle(nets, own, alone, roots, done, &mut known, *k)?;
    }
    Ok(())
}

/// The numbers from 0 on, so many.
fn numbers(alloc: Global, count: usize) -> Result<Vec<u32>, OutOfMemory>
    ensures { IfOk result (λ made. made.items ≡ places count) }
{
    let mut made = Vec::new(alloc);
    for k in 0..count {
        let Ok(number) = u32::try_from(k) else {
            // word: the number of a net, of 32 bits
            return Err(OutOfMemory);
        };
        made.push(number)?;
    }
    Ok(made)
}

/// Pins nets and finds what stands for each.
fn find_roots(
    alloc: Global,
    netlist: &Netlist,
    roots: &mut [u32],
    own: &mut [bool],
    alone: &mut [bool],
    done: &mut [bool],
) -> Result<(), OutOfMemory>
    requires runs { IsNetlist netlist.now }
    requires emittable { IsEmittable netlist.now }
    requires begun { CanFold netlist.now.nets own.old alone.old roots.old done.old }
    ensures { OnOk result (IsFolded netlist.now roots.new) }
{
    let order = order_of(alloc, netlist)?;
    let nets = netlist.nets();
    pin(own, alone, nets, netlist.labels());
    settle_all(alloc, nets, own, alone, roots, done, order.as_slice())
}

/// The netlist whose nets read what stands for what they read.
fn read_roots(
    alloc: Global,
    netlist: &Netlist,
    kept: &[u32],
    roots: &[u32],
) -> Result<Netlist, OutOfMemory>
    requires runs { IsNetlist netlist.now }
    requires emittable { IsEmittable netlist.now }
    requires kept { kept.now ≡ places (length netlist.now.nets) }
    requires folded { IsFolded netlist.now roots.now }
    ensures runs { IfOk result IsNetlist }
    ensures emittable { IfOk result IsEmittable }
    ensures refines { IfOk result (Refines netlist.now) }
{
    represents_refine();
    renumbered_runs();
    renumbered_emits();
    renumbered(alloc, netlist, kept, roots)
}

/// The netlist whose nets read no copies and no repeated nets, which stay under their numbers. It
/// takes n log n for n nets. `OutOfMemory` where memory is wanting.
pub fn fold(alloc: Global, netlist: &Netlist) -> Result<Netlist, OutOfMemory>
    requires runs { IsNetlist netlist.now }
    requires emittable { IsEmittable netlist.now }
    ensures runs { IfOk result IsNetlist }
    ensures emittable { IfOk result IsEmittable }
    ensures refines { IfOk result (Refines netlist.now) }
{
    let count = netlist.nets().len();
    let kept = numbers(alloc, count)?;
    let mut roots = numbers(alloc, count)?;
    let mut own = vec![in alloc; false; count]?;
    let mut alone = vec![in alloc; false; count]?;
    let mut done = vec![in alloc; false; count]?;
    find_roots(
        alloc,
        netlist,
        roots.as_mut_slice(),
        own.as_mut_slice(),
        alone.as_mut_slice(),
        done.as_mut_slice(),
    )?;
    read_roots(alloc, netlist, kept.as_slice(), roots.as_slice())
}
