//! Whole numbers put into a type.
ghost use Rattle.std.specs.Prelude.{◌≡◌, ◌^◌, ◌≤◌, true, ℤ, pos, ◌+ℤ◌, ◌*ℤ◌};
ghost use Rattle.std.specs.Int.Signed.{shr_z};
ghost use Rattle.math_num.specs.Word.{IsWord, IsWrapped};
ghost use Rattle.fx_type.specs.declared.kind.FxType.TheVariants.{Num};
ghost use Rattle.fx_type.specs.FxType.{IsType};
ghost use Rattle.fx_type.specs.Conversion.{Settles};
ghost use Rattle.fx_round.specs.inner.Narrow.{least_beside};

use fx_type::FxType;

/// The least number of the word whose greatest one this is.
fn lowest(highest: i128, signed: bool) -> i128
    ensures { result ≡ least_beside signed highest }
{
    if signed { -1 - highest } else { 0 }
}

/// The number of a word that is nearest to `r`.
pub fn nearest(r: i128, width: u8, signed: bool) -> i128
    requires { IsWord width signed }
    ensures { (frac : ℤ) → Settles (Num signed width frac) true r result }
{
    let highest = fx_num::highest(width, signed);
    r.clamp(lowest(highest, signed), highest)
}

/// The lower 64 bits.
fn low_half(r: i128) -> u64
    ensures { r ≡ shr_z r (2 ^ 64) *ℤ pos (2 ^ 64) +ℤ pos result }
{
    (r.cast_unsigned() & u128::from(u64::MAX)) as u64
}

/// The number of at most 64 bits that is congruent to `r`.
fn residue_low(r: i64, width: u8, signed: bool) -> i128
    requires some { 1 ≤ width }
    requires few { width ≤ 64 }
    ensures { IsWrapped r width signed result }
{
    let spare = 64 - width;
    if signed {
        i128::from((r << spare) >> spare)
    } else {
        i128::from((r.cast_unsigned() << spare) >> spare)
    }
}

/// The number of a word of more than 64 bits that is congruent to `r`: its lower 64 bits stay.
fn residue_high(r: i128, width: u8, signed: bool) -> i128
    requires word { IsWord width signed }
    requires many { 65 ≤ width }
    ensures { IsWrapped r width signed result }
{
    let high = residue_low((r >> 64) as i64, width - 64, signed);
    (high << 64) + i128::from(low_half(r))
}

/// The number of a word that is congruent to `r`. Only 64 bits are shifted.
pub fn residue(r: i128, width: u8, signed: bool) -> i128
    requires { IsWord width signed }
    ensures { IsWrapped r width signed result }
{
    if width <= 64 {
        residue_low(low_half(r).cast_signed(), width, signed)
    } else {
        residue_high(r, width, signed)
    }
}

/// The number of the type that is nearest to the whole number `r`.
pub fn nearest_in_type(r: i128, to: FxType) -> i128
    requires { IsType to }
    ensures { Settles to true r result }
{
    match to {
        FxType::Num { signed, width, .. } => nearest(r, width, signed),
        FxType::Logical => r.clamp(0, 1),
    }
}

/// What a number type of this word stores for `v` times 2 to the power `by`. It stands apart, so that
/// the short way of a conversion needs few registers.
#[inline(never)]
pub fn settled_up(v: i128, by: u16, width: u8, signed: bool, saturate: bool) -> i128
    requires { IsWord width signed }
    ensures { (frac : ℤ) → Settles (Num signed width frac) saturate (v *ℤ pos (2 ^ by)) result }
{
    if saturate {
        saturated_up(v, u32::from(by), width, signed)
    } else if by < 128 {
        residue(v << by, width, signed)
    } else {
        0
    }
}

/// The same, saturated: what passes 128 bits is out of every range.
fn saturated_up(v: i128, by: u32, width: u8, signed: bool) -> i128
    requires { IsWord width signed }
    ensures { (frac : ℤ) → Settles (Num signed width frac) true (v *ℤ pos (2 ^ by)) result }
{
    match fx_num::shift_up(v, by) {
        Some(r) => nearest(r, width, signed),
        None if v < 0 => fx_num::lowest(width, signed),
        None => fx_num::highest(width, signed),
    }
}
