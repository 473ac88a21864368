//! Nets that show what a net that they read shows.
ghost use Rattle.std.specs.Prelude.{◌≡◌, if◌then◌else◌, MatchOption, ⊤};
ghost use Rattle.hw_renumber.specs.Renumbered.{place_in};
ghost use Rattle.hw_fold.specs.inner.Passing.{IsBit, IsBitNet, IsCopyOf, IsJoin, IsPick, IsSameChoice, IsSign};
ghost use Rattle.hw_fold.specs.inner.Passing.{Passes};

use hw_net::{Net, NetKind, NetOp};

/// What stands for a net, and 0 for one that isn't there.
pub fn root_of(net: u32, roots: &[u32]) -> u32
    ensures { result ≡ place_in roots.now net }
{
    match roots.get(net as usize) {
        Some(root) => *root,
        None => 0,
    }
}

/// Which bit a net is, if it is the constant 0 or 1.
pub fn bit_net(net: &Net) -> Option<bool>
    ensures { MatchOption result ⊤ (IsBitNet net.now) }
{
    match &net.kind {
        NetKind::Comb {
            op: NetOp::Const(0),
            ..
        } => Some(false),
        NetKind::Comb {
            op: NetOp::Const(1),
            ..
        } => Some(true),
        _ => None,
    }
}

/// Which bit a net shows always, if what stands for it is the constant 0 or 1.
pub fn bit_of(nets: &[Net], roots: &[u32], k: u32) -> Option<bool>
    ensures { MatchOption result ⊤ (IsBit nets.now (place_in roots.now) k) }
{
    let Some(net) = nets.get(root_of(k, roots) as usize) else {
        return None;
    };
    bit_net(net)
}

/// The net that a net only resizes.
fn copied(net: &Net) -> Option<u32>
    ensures { MatchOption result ⊤ (IsCopyOf net.now) }
{
    match &net.kind {
        NetKind::Comb {
            op: NetOp::Resize,
            args,
        } => match args.as_slice() {
            [read] => Some(*read),
            _ => None,
        },
        _ => None,
    }
}

/// One of two nets that a net chooses between, where the same stands for both.
fn chosen(net: &Net, roots: &[u32]) -> Option<u32>
    ensures { MatchOption result ⊤ (IsSameChoice (place_in roots.now) net.now) }
{
    match &net.kind {
        NetKind::Comb {
            op: NetOp::Choose,
            args,
        } => match args.as_slice() {
            [_, one, second] => {
                if root_of(*one, roots) == root_of(*second, roots) {
                    Some(*one)
                } else {
                    None
                }
            }
            _ => None,
        },
        _ => None,
    }
}

/// The first of two nets where the bit is 1.
fn arm(bit: bool, one: u32, second: u32) -> u32
    ensures { result ≡ (if bit then one else second) }
{
    if bit { one } else { second }
}

/// The net that a net chooses by a constant.
fn picked(nets: &[Net], net: &Net, roots: &[u32]) -> Option<u32>
    ensures { MatchOption result ⊤ (IsPick nets.now (place_in roots.now) net.now) }
{
    match &net.kind {
        NetKind::Comb {
            op: NetOp::Choose,
            args,
        } => match args.as_slice() {
            [test, one, second] => match bit_of(nets, roots, *test) {
                Some(bit) => Some(arm(bit, *one, *second)),
                None => None,
            },
            _ => None,
        },
        _ => None,
    }
}

/// The net whose bits a net has, or those of 0.
fn joined(nets: &[Net], net: &Net, roots: &[u32]) -> Option<u32>
    ensures { MatchOption result ⊤ (IsJoin nets.now (place_in roots.now) net.now) }
{
    match &net.kind {
        NetKind::Comb {
            op: NetOp::Or,
            args,
        } => match args.as_slice() {
            [nought, read] => match bit_of(nets, roots, *nought) {
                Some(false) => Some(*read),
                _ => None,
            },
            _ => None,
        },
        _ => None,
    }
}

/// The net of which a net of one bit tells whether it is above 0.
fn signed(nets: &[Net], net: &Net, roots: &[u32]) -> Option<u32>
    ensures { MatchOption result ⊤ (IsSign nets.now (place_in roots.now) net.now) }
{
    if net.width != 1 || net.signed {
        return None;
    }
    match &net.kind {
        NetKind::Comb {
            op: NetOp::Less,
            args,
        } => match args.as_slice() {
            [nought, read] => match bit_of(nets, roots, *nought) {
                Some(false) => Some(*read),
                _ => None,
            },
            _ => None,
        },
        _ => None,
    }
}

/// The net that a net shows by one of the rules, if the two have one word.
pub fn passed(nets: &[Net], net: &Net, roots: &[u32]) -> Option<u32>
    ensures { MatchOption result ⊤ (Passes nets.now (place_in roots.now) net.now) }
{
    if let Some(read) = copied(net) {
        return Some(read);
    }
    if let Some(read) = chosen(net, roots) {
        return Some(read);
    }
    if let Some(read) = picked(nets, net, roots) {
        return Some(read);
    }
    if let Some(read) = joined(nets, net, roots) {
        return Some(read);
    }
    signed(nets, net, roots)
}
