//! Nets that show one bit always, since they are made of constants.
ghost use Rattle.std.specs.Prelude.{◌≡◌, [], ◌∷◌, MatchOption, ⊤};
ghost use Rattle.hw_net.specs.declared.netlist.NetKind.TheVariants.{Comb};
ghost use Rattle.hw_net.specs.declared.netlist.NetOp.TheVariants.{Less};
ghost use Rattle.hw_renumber.specs.Renumbered.{place_in};
ghost use Rattle.hw_fold.specs.inner.Passing.{IsComparedBits, IsKnown, IsResizedBit, IsTurnedBit};

use crate::passing::bit_of;
use hw_net::{Net, NetKind, NetOp};

/// The bit that a net resizes.
fn resized(nets: &[Net], net: &Net, roots: &[u32]) -> Option<bool>
    ensures { MatchOption result ⊤ (IsResizedBit nets.now (place_in roots.now) net.now) }
{
    match &net.kind {
        NetKind::Comb {
            op: NetOp::Resize,
            args,
        } => match args.as_slice() {
            [read] => bit_of(nets, roots, *read),
            _ => None,
        },
        _ => None,
    }
}

/// The bit that a net of one bit has, if it is the inverse of a constant.
fn turned(nets: &[Net], net: &Net, roots: &[u32]) -> Option<bool>
    ensures { MatchOption result ⊤ (IsTurnedBit nets.now (place_in roots.now) net.now) }
{
    if net.width != 1 || net.signed {
        return None;
    }
    match &net.kind {
        NetKind::Comb {
            op: NetOp::Not,
            args,
        } => match args.as_slice() {
            [read] => match bit_of(nets, roots, *read) {
                Some(true) => Some(false),
                Some(false) => Some(true),
                None => None,
            },
            _ => None,
        },
        _ => None,
    }
}

/// The two nets that a net compares.
fn pair_of(net: &Net) -> Option<(u32, u32)>
    ensures { MatchOption result ⊤ (λ pair. net.now.kind ≡ Comb Less (pair.0 ∷ pair.1 ∷ [])) }
{
    match &net.kind {
        NetKind::Comb {
            op: NetOp::Less,
            args,
        } => match args.as_slice() {
            [one, second] => Some((*one, *second)),
            _ => None,
        },
        _ => None,
    }
}

/// What a comparison of two constant bits tells.
fn compared(nets: &[Net], net: &Net, roots: &[u32]) -> Option<bool>
    ensures { MatchOption result ⊤ (IsComparedBits nets.now (place_in roots.now) net.now) }
{
    let Some((one, second)) = pair_of(net) else {
        return None;
    };
    let Some(first) = bit_of(nets, roots, one) else {
        return None;
    };
    let Some(other) = bit_of(nets, roots, second) else {
        return None;
    };
    Some(!first & other)
}

/// The bit that a net shows always, if it is made of constants by one of the rules.
pub fn known_bit(nets: &[Net], net: &Net, roots: &[u32]) -> Option<bool>
    ensures { MatchOption result ⊤ (IsKnown nets.now (place_in roots.now) net.now) }
{
    if let Some(bit) = resized(nets, net, roots) {
        return Some(bit);
    }
    if let Some(bit) = turned(nets, net, roots) {
        return Some(bit);
    }
    compared(nets, net, roots)
}
