//! Which net stands for each.
ghost use Rattle.std.specs.Prelude.{◌≡◌, ◌<◌, IfOk, true, false, length, MatchOption, ⊤};
ghost use Rattle.hw_renumber.specs.Renumbered.{place_in};
ghost use Rattle.hw_net.specs.Products.{net_at};
ghost use Rattle.hw_fold.specs.inner.Fold.{IsOpen};
ghost use Rattle.hw_fold.specs.inner.Passing.{IsBitNet};
ghost use Rattle.hw_fold.specs.inner.Pins.{is_marked};
ghost use Rattle.hw_fold.specs.inner.Roots.{fold_of, HasSizes, IsRoot, IsFound, StandsFor};

use crate::alike::is_alike;
use crate::key::{Key, key_of, key_of_bit};
use crate::knowing::known_bit;
use crate::passing::{bit_net, passed, root_of};
use fx_io::OutOfMemory;
use hw_net::Net;
use std::collections::BTreeMap;

/// Whether a net is done, stands for itself, and may stand for others.
fn is_free(alone: &[bool], roots: &[u32], done: &[bool], other: u32) -> bool
    requires alone { other < length alone.now }
    requires roots { other < length roots.now }
    requires done { other < length done.now }
    ensures settled { result ≡ true → is_marked done.now other ≡ true }
    ensures own { result ≡ true → place_in roots.now other ≡ other }
    ensures free { result ≡ true → is_marked alone.now other ≡ false }
{
    done[other as usize] && roots[other as usize] == other && !alone[other as usize]
}

/// Whether two nets have one word.
fn have_one_word(one: &Net, other: &Net) -> bool
    ensures wide { result ≡ true → one.now.width ≡ other.now.width }
    ensures sign { result ≡ true → one.now.signed ≡ other.now.signed }
{
    one.width == other.width && one.signed == other.signed
}

/// Whether a net is done, stands for itself, and may stand for another, whose word it has.
fn can_stand(nets: &[Net], alone: &[bool], roots: &[u32], done: &[bool], k: u32, other: u32) -> bool
    requires sizes { HasSizes (fold_of nets.now alone.now roots.now done.now) }
    requires inside { k < length nets.now }
    ensures { result ≡ true → IsRoot (fold_of nets.now alone.now roots.now done.now) k other }
{
    if other as usize >= nets.len() {
        return false;
    }
    is_free(alone, roots, done, other) && have_one_word(&nets[other as usize], &nets[k as usize])
}

/// Whether a net is that bit.
fn is_bit(nets: &[Net], k: u32, bit: bool) -> bool
    requires inside { k < length nets.now }
    ensures { result ≡ true → IsBitNet (net_at nets.now k) bit }
{
    match bit_net(&nets[k as usize]) {
        Some(other) => other == bit,
        None => false,
    }
}

/// What stands for a net whose number a net passes on, if it may stand for that net too.
fn shown(nets: &[Net], alone: &[bool], roots: &[u32], done: &[bool], k: u32) -> Option<u32>
    requires sizes { HasSizes (fold_of nets.now alone.now roots.now done.now) }
    requires inside { k < length nets.now }
    ensures { MatchOption result ⊤ (IsFound (fold_of nets.now alone.now roots.now done.now) k) }
{
    let Some(read) = passed(nets, &nets[k as usize], roots) else {
        return None;
    };
    let other = root_of(read, roots);
    if can_stand(nets, alone, roots, done, k, other) {
        Some(other)
    } else {
        None
    }
}

/// The net that is known as the constant bit that a net shows always, if it may stand for that net.
fn constant(
    nets: &[Net],
    alone: &[bool],
    roots: &[u32],
    done: &[bool],
    known: &BTreeMap<Key, u32>,
    k: u32,
) -> Option<u32>
    requires sizes { HasSizes (fold_of nets.now alone.now roots.now done.now) }
    requires inside { k < length nets.now }
    ensures { MatchOption result ⊤ (IsFound (fold_of nets.now alone.now roots.now done.now) k) }
{
    let net = &nets[k as usize];
    let Some(bit) = known_bit(nets, net, roots) else {
        return None;
    };
    let Some(other) = known.get(&key_of_bit(net, bit)).copied() else {
        return None;
    };
    if can_stand(nets, alone, roots, done, k, other) && is_bit(nets, other, bit) {
        Some(other)
    } else {
        None
    }
}

/// The net that is known by the key, if it does what the net does and may stand for it.
fn repeated(
    nets: &[Net],
    alone: &[bool],
    roots: &[u32],
    done: &[bool],
    k: u32,
    known: Option<u32>,
) -> Option<u32>
    requires sizes { HasSizes (fold_of nets.now alone.now roots.now done.now) }
    requires inside { k < length nets.now }
    ensures { MatchOption result ⊤ (IsFound (fold_of nets.now alone.now roots.now done.now) k) }
{
    let Some(other) = known else {
        return None;
    };
    if can_stand(nets, alone, roots, done, k, other)
        && is_alike(&nets[other as usize].kind, &nets[k as usize].kind, roots)
    {
        Some(other)
    } else {
        None
    }
}

/// What is to stand for a net, if another is. A net for which none is found is known from then on.
fn found(
    nets: &[Net],
    alone: &[bool],
    roots: &[u32],
    done: &[bool],
    known: &mut BTreeMap<Key, u32>,
    k: u32,
) -> Result<Option<u32>, OutOfMemory>
    requires sizes { HasSizes (fold_of nets.now alone.now roots.now done.now) }
    requires inside { k < length nets.now }
    ensures { IfOk result (λ other. MatchOption other ⊤
        (IsFound (fold_of nets.now alone.now roots.now done.now) k)) }
{
    if let Some(other) = shown(nets, alone, roots, done, k) {
        return Ok(Some(other));
    }
    if let Some(other) = constant(nets, alone, roots, done, known, k) {
        return Ok(Some(other));
    }
    let key = key_of(&nets[k as usize], roots);
    if let Some(other) = repeated(nets, alone, roots, done, k, known.get(&key).copied()) {
        return Ok(Some(other));
    }
    let _ = known.insert(key, k)?;
    Ok(None)
}

/// What stands for a net from now on: itself where it keeps its place, or where no other is found.
pub fn stand_in(
    nets: &[Net],
    own: &[bool],
    alone: &[bool],
    roots: &[u32],
    done: &[bool],
    known: &mut BTreeMap<Key, u32>,
    k: u32,
) -> Result<u32, OutOfMemory>
    requires ready { IsOpen nets.now own.now alone.now roots.now done.now k }
    ensures { IfOk result
        (StandsFor own.now (fold_of nets.now alone.now roots.now done.now) k) }
{
    if own[k as usize] || alone[k as usize] {
        return Ok(k);
    }
    match found(nets, alone, roots, done, known, k)? {
        Some(other) => Ok(other),
        None => Ok(k),
    }
}
