//! Rounding and settling in 64 bits, for numbers and types of at most 63 bits.
ghost use Rattle.std.specs.Prelude.{true, ◌≡◌, ℤ, pos, neg_ℤ, ◌+ℤ◌, ◌*ℤ◌, ◌≤ℤ◌, ◌-◌, ◌^◌, ◌≤◌, cond, int_lt};
ghost use Rattle.math_num.specs.Word.{IsWord, InWord, IsWrapped, word_highest};
ghost use Rattle.fx_type.specs.declared.kind.FxType.TheVariants.{Num};
ghost use Rattle.fx_type.specs.Conversion.{twice, RoundsDown, RoundsUp, Rounds, Settles};
ghost use Rattle.fx_round.specs.inner.Narrow.{IsTie, least_beside};

use fx_type::Rounding;

/// `v` times 2 to the power `by`.
pub fn shift_up(v: i64, by: u16) -> i64
    requires few { by ≤ 63 }
    requires room { InWord 64 true (v *ℤ pos (2 ^ by)) }
    ensures { result ≡ v *ℤ pos (2 ^ by) }
{
    v << by
}

/// 2 to the power `by`, with a minus sign.
fn minus_power(by: u16) -> i64
    requires few { by ≤ 63 }
    ensures { result ≡ neg_ℤ (pos (2 ^ by)) }
{
    -1 << by
}

/// One of two numbers, by the sign of `v`.
fn by_sign(v: i64, at_least_zero: i64, below_zero: i64) -> i64
    ensures { result ≡ cond (int_lt v (pos 0)) below_zero at_least_zero }
{
    if v < 0 { below_zero } else { at_least_zero }
}

/// One where the number is odd.
fn odd_bit(v: i64) -> i64
    ensures { IsTie v result }
{
    v & 1
}

/// The whole number below `v` over 2 to the power `by`.
fn floor_of(v: i64, by: u16) -> i64
    requires few { by ≤ 63 }
    ensures { RoundsDown v (2 ^ by) result }
{
    v >> by
}

/// The same with half of 2 to the power `by` added before: what is left of the halves without half
/// of them.
fn floor_past_half(v: i64, by: u16) -> i64
    requires some { 1 ≤ by }
    requires few { by ≤ 63 }
    ensures { (half : ℤ) → twice half ≡ pos (2 ^ by) → RoundsDown (v +ℤ half) (2 ^ by) result }
{
    let halves = v >> (by - 1);
    halves - (halves >> 1)
}

/// The whole number above `v` over 2 to the power `by`.
fn ceiling_of(v: i64, by: u16) -> i64
    requires low { neg_ℤ (pos (2 ^ 62)) ≤ℤ v }
    requires few { by ≤ 63 }
    ensures { RoundsUp v (2 ^ by) result }
{
    -(-v >> by)
}

/// `v` over 2 to the power `by`, rounded by the mode.
pub fn rounded_down(v: i64, by: u16, mode: Rounding) -> i64
    requires low { neg_ℤ (pos (2 ^ 62)) ≤ℤ v }
    requires some { 1 ≤ by }
    requires few { by ≤ 63 }
    ensures { Rounds mode v (2 ^ by) result }
{
    match mode {
        Rounding::Floor => floor_of(v, by),
        Rounding::Ceiling => ceiling_of(v, by),
        Rounding::Zero => floor_of(v + by_sign(v, 0, -1 - minus_power(by)), by),
        Rounding::Nearest => floor_past_half(v, by),
        Rounding::Round => floor_past_half(v + by_sign(v, 0, -1), by),
        Rounding::Convergent => floor_past_half(v - 1 + odd_bit(floor_of(v, by)), by),
    }
}

/// The greatest number of a word.
fn highest(width: u8, signed: bool) -> i64
    requires word { IsWord width signed }
    requires few { width ≤ 63 }
    ensures { result ≡ word_highest width signed }
{
    let bits = if signed { width - 1 } else { width };
    -1 - minus_power(u16::from(bits))
}

/// The least number of the word whose greatest one this is.
fn lowest(highest: i64, signed: bool) -> i64
    ensures { result ≡ least_beside signed highest }
{
    if signed { -1 - highest } else { 0 }
}

/// The number of a word that is congruent to `r`.
fn residue(r: i64, width: u8, signed: bool) -> i64
    requires word { IsWord width signed }
    requires few { width ≤ 63 }
    ensures { IsWrapped r width signed result }
{
    let spare = 64 - width;
    if signed {
        (r << spare) >> spare
    } else {
        (r.cast_unsigned() & (u64::MAX >> spare)) as i64
    }
}

/// What a number type stores for the whole number `r`.
pub fn stored_number(r: i64, width: u8, signed: bool, saturate: bool) -> i64
    requires word { IsWord width signed }
    requires few { width ≤ 63 }
    ensures { (frac : ℤ) → Settles (Num signed width frac) saturate r result }
{
    if saturate {
        let highest = highest(width, signed);
        r.clamp(lowest(highest, signed), highest)
    } else {
        residue(r, width, signed)
    }
}
