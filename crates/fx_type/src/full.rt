//! The types that hold every sum, product or value of others.
//!
//! A sum's type is found from its span: the least and the greatest sum, with each term aligned to
//! the greatest frac. Every type's range has 0, so a term or a part of a sum that passes 128 bits
//! makes the whole sum too wide, and no larger numbers are needed.
ghost use Rattle.std.specs.Prelude.{ℕ, ◌^◌, ◌<◌, ◌≤◌, pos, negsuc, ◌+ℤ◌, ◌*ℤ◌, ◌≤ℤ◌, length, All, IfOk, OnErr, MatchResult};
ghost use Rattle.fx_type.specs.FxType.{IsType, frac_of};
ghost use Rattle.fx_type.specs.FullType.{IsGreatestFrac, IsFullSum, IsFullProduct, IsUnion};
ghost use Rattle.fx_type.specs.Span.{least_term, greatest_term, sum_of, IsSpan, FitSpan, IsNarrowest};
ghost use Rattle.fx_type.specs.declared.kind.FxType.{FxType};

use crate::kind::FxType;

/// The described type is not valid.
#[derive(Clone, Copy, Debug)]
pub struct TooWide;

/// The ends of what a term or a sum can be.
#[derive(Clone, Copy)]
struct Span {
    low: i128,
    high: i128,
}

/// The number of bits of `v` without leading zeros.
fn bit_length(v: u128) -> u8
    requires { v < 2 ^ 127 }
    ensures enough { v < 2 ^ result }
    ensures least { (k : ℕ) → v < 2 ^ k → result ≤ k }
    ensures bound { result ≤ 127 }
{
    if v == 0 { 0 } else { v.ilog2() as u8 + 1 }
}

/// The narrowest number type with this frac that has both ends, which 0 lies between.
fn narrowest(span: Span, frac: i16) -> FxType
    requires low { span.low ≤ℤ pos 0 }
    requires high { pos 0 ≤ℤ span.high }
    requires least { negsuc 63 ≤ℤ frac }
    requires greatest { frac ≤ℤ pos 128 }
    ensures { IsNarrowest span.low span.high frac result }
{
    let above = bit_length(span.high as u128);
    if span.low < 0 {
        let below = bit_length((-1 - span.low) as u128);
        FxType::Num {
            signed: true,
            width: above.max(below).max(1) + 1,
            frac,
        }
    } else {
        FxType::Num {
            signed: false,
            width: above.max(1),
            frac,
        }
    }
}

/// Both ends, shifted up.
fn shifted_span(low: i128, high: i128, by: u32) -> Result<Span, TooWide>
    ensures { let least = low *ℤ pos (2 ^ by) in
        let greatest = high *ℤ pos (2 ^ by) in
        MatchResult result (IsSpan least greatest) (λ _. ¬ FitSpan least greatest) }
{
    let Some(least) = fx_num::shift_up(low, by) else {
        return Err(TooWide);
    };
    let Some(greatest) = fx_num::shift_up(high, by) else {
        return Err(TooWide);
    };
    Ok(Span {
        low: least,
        high: greatest,
    })
}

/// The ends of a term that may be subtracted, aligned to `frac`.
fn term_span(subtracted: bool, kind: FxType, frac: i16) -> Result<Span, TooWide>
    requires valid { IsType kind }
    requires least { frac_of kind ≤ℤ frac }
    requires greatest { frac ≤ℤ pos 128 }
    ensures { let least = least_term frac (subtracted, kind) in
        let greatest = greatest_term frac (subtracted, kind) in
        MatchResult result (IsSpan least greatest) (λ _. ¬ FitSpan least greatest) }
{
    let by = (frac - kind.frac()) as u32;
    let low = kind.lowest();
    let high = kind.highest();
    if !subtracted {
        shifted_span(low, high, by)
    } else {
        match low.checked_neg() {
            Some(greatest) => shifted_span(-high, greatest, by),
            None => Err(TooWide),
        }
    }
}

/// The ends of the sum of two terms.
fn sum_of_spans(a: Span, b: Span) -> Result<Span, TooWide>
    ensures { let least = a.low +ℤ b.low in
        let greatest = a.high +ℤ b.high in
        MatchResult result (IsSpan least greatest) (λ _. ¬ FitSpan least greatest) }
{
    let Some(least) = a.low.checked_add(b.low) else {
        return Err(TooWide);
    };
    let Some(greatest) = a.high.checked_add(b.high) else {
        return Err(TooWide);
    };
    Ok(Span {
        low: least,
        high: greatest,
    })
}

/// The least and the greatest sum, aligned to `frac`.
fn sum_span(terms: &[(bool, FxType)], frac: i16) -> Result<Span, TooWide>
    requires valid { All (λ term. IsType term.1) terms.now }
    requires least { All (λ term. frac_of term.1 ≤ℤ frac) terms.now }
    requires greatest { frac ≤ℤ pos 128 }
    ensures { let least = sum_of (least_term frac) terms.now in
        let greatest = sum_of (greatest_term frac) terms.now in
        MatchResult result (IsSpan least greatest) (λ _. ¬ FitSpan least greatest) }
{
    let mut total = Span { low: 0, high: 0 };
    for (subtracted, kind) in terms {
        total = sum_of_spans(total, term_span(*subtracted, *kind, frac)?)?;
    }
    Ok(total)
}

/// The greatest frac of the terms.
fn greatest_frac(terms: &[(bool, FxType)]) -> i16
    requires some { 1 ≤ length terms.now }
    ensures { IsGreatestFrac terms.now result }
{
    let mut greatest = terms[0].1.frac();
    for (_, kind) in terms {
        greatest = greatest.max(kind.frac());
    }
    greatest
}

/// The type of a sum: the narrowest that holds every possible sum of values of the terms, of which
/// those marked `true` are subtracted, with the greatest frac of the terms. It is unsigned exactly
/// where no possible sum is negative. `TooWide` where there is no such type.
/// Source: Fixed-Point Designer, full precision sums; the exact width is own.
pub fn full_sum(terms: &[(bool, FxType)]) -> Result<FxType, TooWide>
    requires valid { All (λ term. IsType term.1) terms.now }
    requires some { 1 ≤ length terms.now }
    requires few { length terms.now ≤ 32 }
    ensures ok { IfOk result (λ type. IsFullSum terms.now type) }
    ensures too_wide { OnErr result ((type : FxType) → ¬ IsFullSum terms.now type) }
{
    let frac = greatest_frac(terms);
    let span = sum_span(terms, frac)?;
    Ok(narrowest(span, frac))
}

/// The type of a product: as wide as both factors together, with the sum of their fracs, signed
/// where either is. `TooWide` where that is not valid. Source: Fixed-Point Designer, full precision
/// products.
pub fn full_product(a: FxType, b: FxType) -> Result<FxType, TooWide>
    requires left { IsType a }
    requires right { IsType b }
    ensures ok { IfOk result (λ type. IsFullProduct a b type) }
    ensures too_wide { OnErr result ((type : FxType) → ¬ IsFullProduct a b type) }
{
    let kind = FxType::Num {
        signed: a.is_signed() | b.is_signed(),
        width: a.width().saturating_add(b.width()),
        frac: a.frac() + b.frac(),
    };
    if kind.is_valid() {
        Ok(kind)
    } else {
        Err(TooWide)
    }
}

/// The type of a choice between two: the type itself where both are the same, and else the narrowest
/// that holds every value of both, with the greater frac. `TooWide` where there is no such type.
/// Source: Fixed-Point Designer, aggregate types.
pub fn union(a: FxType, b: FxType) -> Result<FxType, TooWide>
    requires left { IsType a }
    requires right { IsType b }
    ensures ok { IfOk result (λ type. IsUnion a b type) }
    ensures too_wide { OnErr result ((type : FxType) → ¬ IsUnion a b type) }
{
    if a == b {
        return Ok(a);
    }
    let frac = a.frac().max(b.frac());
    let left = term_span(false, a, frac)?;
    let right = term_span(false, b, frac)?;
    let span = Span {
        low: left.low.min(right.low),
        high: left.high.max(right.high),
    };
    Ok(narrowest(span, frac))
}
