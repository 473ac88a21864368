//! Pieces of lines.
ghost use Rattle.std.specs.Prelude.{◌≡◌};
ghost use Rattle.cmd_check.specs.CheckText.{named, num_front, num_text, period_text, type_text};
ghost use Rattle.cmd_check.specs.Handed.{Adds};

use crate::pending::{Pending, put};
use fx_io::Sink;
use fx_type::FxType;
use itoa::Buffer;

/// Puts a number in decimal behind its word.
pub fn put_named<K: Sink>(out: &mut K, pending: &mut Pending, word: &[u8], number: u64)
    ensures { Adds K.taken K.faults out.old pending.old out.new pending.new
        (named word.now number) }
{
    let mut digits = Buffer::new();
    put(out, pending, word);
    put(out, pending, digits.format(number).as_bytes());
}

/// Puts a period.
pub fn put_period<K: Sink>(out: &mut K, pending: &mut Pending, period: Option<u32>)
    ensures { Adds K.taken K.faults out.old pending.old out.new pending.new
        (period_text period) }
{
    match period {
        Some(period) => put_named(out, pending, b" period ", u64::from(period)),
        None => put(out, pending, b" period inf"),
    }
}

/// What the type of a number begins with.
fn front_of(signed: bool) -> &'static [u8]
    ensures { result.now ≡ num_front signed }
{
    if signed { b" fixdt(1," } else { b" fixdt(0," }
}

/// Puts the type of a number.
fn put_num<K: Sink>(out: &mut K, pending: &mut Pending, signed: bool, width: u8, frac: i16)
    ensures { Adds K.taken K.faults out.old pending.old out.new pending.new
        (num_text signed width frac) }
{
    let mut digits = Buffer::new();
    put_named(out, pending, front_of(signed), u64::from(width));
    put(out, pending, b",");
    put(out, pending, digits.format(frac).as_bytes());
    put(out, pending, b")");
}

/// Puts a type.
pub fn put_type<K: Sink>(out: &mut K, pending: &mut Pending, own: FxType)
    ensures { Adds K.taken K.faults out.old pending.old out.new pending.new (type_text own) }
{
    match own {
        FxType::Num {
            signed,
            width,
            frac,
        } => put_num(out, pending, signed, width, frac),
        FxType::Logical => put(out, pending, b" boolean"),
    }
}
