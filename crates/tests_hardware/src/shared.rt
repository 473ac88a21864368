//! Shared multipliers.
ghost use Rattle.std.specs.Prelude.{◌≡◌, ◌<◌, All, IfOk, true, length};
ghost use Rattle.hw_share.specs.Operations.{IsOperation, SameWord, AreApart, CanShare, IsUsed};
ghost use Rattle.tests_hardware.specs.inner.OperationTests.{AreUsed, IsApartAt};

use crate::nets::frame_of;
use crate::reading::{Told, told_in};
use anyhow::{Error, Result};
use fx_io::{OutOfMemory, Sizes};
use fx_num::is_word;
use hw_net::{Frame, NetKind, Netlist};
use hw_share::{Operation, count_of, units};
use std::alloc::Global;
use tests_rows::Row;

/// Whether an operation can be served.
fn is_operation(net: &Netlist, one: Operation) -> bool
    ensures { result ≡ true → IsOperation net.now one }
{
    let Some(left) = net.nets().get(one.left as usize) else {
        return false;
    };
    let Some(right) = net.nets().get(one.right as usize) else {
        return false;
    };
    if left.width > 64 || right.width > 63 {
        return false;
    }
    if !is_word(left.width, left.signed) || !is_word(right.width, right.signed) {
        return false;
    }
    if !is_word(left.width + right.width, left.signed | right.signed) {
        return false;
    }
    let Frame { period, .. } = one.frame;
    let length = u64::from(period) * u64::from(net.cycles());
    0 < period && period <= 4096 && one.slot < length
}

/// Whether two nets have one word.
fn have_one_word(net: &Netlist, one: u32, other: u32) -> bool
    ensures { result ≡ true → SameWord net.now net.now one other }
{
    let Some(first) = net.nets().get(one as usize) else {
        return false;
    };
    let Some(second) = net.nets().get(other as usize) else {
        return false;
    };
    second.width == first.width && second.signed == first.signed
}

/// Whether two operations can share a multiplier.
fn are_apart(net: &Netlist, one: Operation, other: Operation) -> bool
    ensures { result ≡ true → AreApart net.now one other }
{
    if other.frame.period != one.frame.period || other.frame.latency != one.frame.latency {
        return false;
    }
    if one.slot == other.slot || !have_one_word(net, one.left, other.left) {
        return false;
    }
    have_one_word(net, one.right, other.right)
}

/// Whether two operations are apart, if they have one multiplier.
fn may_share(net: &Netlist, one: Operation, other: Operation) -> bool
    ensures { result ≡ true → one.unit ≡ other.unit → AreApart net.now one other }
{
    one.unit != other.unit || are_apart(net, one, other)
}

/// Whether all operations can be served.
fn are_operations(net: &Netlist, operations: &[Operation]) -> bool
    ensures { result ≡ true → All (IsOperation net.now) operations.now }
{
    operations.iter().all(|one| is_operation(net, *one))
}

/// Whether the operation at a place can share with all others.
fn is_apart(net: &Netlist, operations: &[Operation], j: usize) -> bool
    requires { j < length operations.now }
    ensures { result ≡ true → IsApartAt net.now operations.now j (length operations.now) }
{
    for k in 0..operations.len() {
        if k != j && !may_share(net, operations[j], operations[k]) {
            return false;
        }
    }
    true
}

/// Whether a multiplier serves an operation.
fn is_used(operations: &[Operation], unit: u64) -> bool
    ensures { result ≡ true → IsUsed operations.now unit }
{
    for k in 0..operations.len() {
        if operations[k].unit == unit {
            return true;
        }
    }
    false
}

/// Whether the first multipliers serve operations.
fn are_used(operations: &[Operation], count: u64) -> bool
    ensures { result ≡ true → AreUsed operations.now count }
{
    for unit in 0..count {
        if !is_used(operations, unit) {
            return false;
        }
    }
    true
}

/// Whether operations can share multipliers.
fn can_share(net: &Netlist, operations: &[Operation]) -> Result<bool, OutOfMemory>
    ensures { IfOk result (λ can. can ≡ true → CanShare net.now operations.now) }
{
    if !are_operations(net, operations) {
        return Ok(false);
    }
    for j in 0..operations.len() {
        if !is_apart(net, operations, j) {
            return Ok(false);
        }
    }
    let count = count_of(operations)?;
    Ok(are_used(operations, count))
}

impl Told for Operation {
    fn from_row(row: &mut Row<'_>) -> Result<Operation> {
        Ok(Operation {
            frame: frame_of(row)?,
            slot: row.long()?,
            unit: row.long()?,
            left: row.number()?,
            right: row.number()?,
        })
    }
}

/// Puts in the multipliers of a text's operations, and gives the numbers of their products and then
/// the operands of the Unit nets.
pub fn put_units(alloc: Global, net: &mut Netlist, row: &Row<'_>) -> Result<Sizes> {
    let operations = told_in::<Operation>(alloc, row.text.as_slice(), 6)?;
    let mut answers = put_products(alloc, net, operations.as_slice())?;
    put_operands(net, &mut answers)?;
    Ok(answers)
}

fn put_products(alloc: Global, net: &mut Netlist, operations: &[Operation]) -> Result<Sizes> {
    if net.cycles() == 0 || net.cycles() > 1024 {
        return Err(Error::msg("no number of clocks"));
    }
    if !can_share(net, operations)? {
        return Err(Error::msg("the operations can't share"));
    }
    let shared = units(alloc, net, operations)?;
    Ok(shared.results)
}

/// Puts the operands of the Unit nets behind other numbers, in order.
fn put_operands(net: &Netlist, numbers: &mut Sizes) -> Result<()> {
    for one in net.nets() {
        if let NetKind::Unit { left, right } = &one.kind {
            numbers.push(*left)?;
            numbers.push(*right)?;
        }
    }
    Ok(())
}
