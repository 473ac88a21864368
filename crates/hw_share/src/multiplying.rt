//! The multipliers behind the ends of their chains.
ghost use Rattle.std.specs.Prelude.{◌≡◌, ◌+◌, ◌∷◌, [], length, IfOk, OnOk};
ghost use Rattle.hw_share.specs.inner.Parts.{Grows, IsMultiplying};
ghost use Rattle.hw_share.specs.inner.Steps.{AreMultipliers, AreReady, CanMultiply, IsMultiplier};

use crate::joining::Ends;
use fx_io::{OutOfMemory, Sizes};
use hw_net::{Net, NetKind, Netlist};
use std::alloc::Global;

/// Puts in the product of two nets, in the word that has every product.
fn multiply(net: &mut Netlist, ends: Ends) -> Result<u32, OutOfMemory>
    requires { CanMultiply net.old ends }
    ensures number { IfOk result (λ number. number ≡ length net.old.nets) }
    ensures is { IfOk result (IsMultiplier net.old net.new ends) }
    ensures long { OnOk result (length net.new.nets ≡ length net.old.nets + 1) }
    ensures grown { OnOk result
        (Grows net.old net.new (ends.left ∷ ends.right ∷ []) IsMultiplying 0) }
{
    let Ends { left, right } = ends;
    let one = &net.nets()[left as usize];
    let other = &net.nets()[right as usize];
    let signed = one.signed | other.signed;
    let width = one.width + other.width;
    let kind = NetKind::Unit { left, right };
    net.add(Net {
        signed,
        width,
        kind,
    })
}

/// Puts in the multipliers of all ends, in order.
pub fn multipliers(
    alloc: Global,
    net: &mut Netlist,
    ends: &[Option<Ends>],
) -> Result<Sizes, OutOfMemory>
    requires { AreReady net.old ends.now }
    ensures { IfOk result (λ numbers.
        AreMultipliers net.old net.new ends.now numbers (length ends.now)) }
{
    let mut numbers = Sizes::new(alloc);
    for known in ends {
        let number = multiply(net, known.unwrap())?;
        numbers.push(number)?;
    }
    Ok(numbers)
}
