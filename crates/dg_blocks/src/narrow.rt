//! Conversion in 64 bits.
ghost use Rattle.std.specs.Prelude.{◌≡◌, ℕ, Bool, true, false, IfSome, ℤ, pos, negsuc, ◌*ℤ◌, ◌≤ℤ◌, ◌^◌, ◌≤◌, FitsSigned};
ghost use Rattle.std.specs.Int.{int_gap, w64};
ghost use Rattle.fx_type.specs.declared.kind.FxType.{FxType};
ghost use Rattle.fx_type.specs.declared.rounding.Rounding.{Rounding};
ghost use Rattle.fx_type.specs.FxType.{IsType, frac_of};
ghost use Rattle.fx_type.specs.Conversion.{twice, Converts, Settles};
ghost use Rattle.dg_blocks.specs.declared.narrow.Way.TheVariants.{Exact};
ghost use Rattle.dg_blocks.specs.Narrow.{IsSmall, IsModest, IsBias, bias_for, IsTie, IsShifted, HasEnds, IsWay, ReachesBelow, HasRoom, IsWithin, IsNarrow};

use fx_type::{FxType, Rounding};

/// How a number is converted (own).
#[derive(Clone, Copy)]
pub enum Way {
    /// By a shift up alone: no bit falls away, and every number is in range.
    Exact,
    /// With one bias for both signs, a shift down, and the lowest bits.
    Wraps,
    /// With one bias for both signs, a shift down, and the nearest end.
    Ends,
    /// With all that a mode may ask for.
    Any,
}

/// What a conversion needs of its types.
#[derive(Clone, Copy)]
pub struct Narrow {
    scale: i64,
    down: u32,
    bias: i64,
    below: i64,
    even: bool,
    low: i64,
    high: i64,
    saturate: bool,
    way: Way,
}

/// The same number in 64 bits.
pub fn short(v: i128) -> i64
    requires { FitsSigned w64 v }
    ensures { result ≡ v }
{
    v as i64
}

/// How far `high` is above `low`, where that is 0 to 60.
pub fn gap(low: i16, high: i16) -> Option<u32>
    requires bounds { (negsuc 63 ≤ℤ low) × (low ≤ℤ pos 128) × (negsuc 63 ≤ℤ high)
        × (high ≤ℤ pos 128) }
    ensures { IfSome result (λ gap. (gap ≤ 60) × (gap ≡ int_gap low high)
        × (int_gap high low ≡ 0)) }
{
    let gap = high - low;
    if gap < 0 {
        return None;
    }
    if gap > 60 {
        return None;
    }
    Some(gap as u32)
}

/// What a mode adds before a shift down by `down` bits: to a number from 0 on, to one below 0, and
/// whether an odd number below the result has one more.
fn bias_of(mode: Rounding, down: u32) -> (i64, i64, bool)
    requires low { 1 ≤ down }
    requires high { down ≤ 60 }
    ensures { IsBias mode (2 ^ down) result.0 result.1 result.2 }
{
    let half = half_of(down);
    let less = half - 1;
    let most = half + less;
    match mode {
        Rounding::Floor => (0, 0, false),
        Rounding::Ceiling => (most, most, false),
        Rounding::Zero => (0, most, false),
        Rounding::Nearest => (half, half, false),
        Rounding::Round => (half, less, false),
        Rounding::Convergent => (less, less, true),
    }
}

/// Half of 2 to the power `down`.
fn half_of(down: u32) -> i64
    requires low { 1 ≤ down }
    requires high { down ≤ 60 }
    ensures twice { twice result ≡ pos (2 ^ down) }
    ensures low { pos 1 ≤ℤ result }
    ensures high { result ≤ℤ pos (2 ^ 59) }
{
    1 << (down - 1)
}

/// One where `even` is set and `lower` is odd.
fn tie(even: bool, lower: i64) -> i64
    ensures { IsTie even lower result }
{
    let odd = lower & 1;
    if even { odd } else { 0 }
}

/// The whole number below `v`, with the bias added, over 2 to the power `down`.
fn biased_shift(v: i64, down: u32, bias: i64, even: bool) -> i64
    requires small { IsSmall v }
    requires down { down ≤ 60 }
    requires bias { (pos 0 ≤ℤ bias) × (bias ≤ℤ pos (2 ^ 60)) }
    ensures shifted { IsShifted v bias even (2 ^ down) result }
    ensures modest { IsModest result }
{
    let above = v + bias + tie(even, v >> down);
    above >> down
}

impl Narrow {
    /// The conversion of a whole number to a type without bits behind the point, where that has at
    /// most 60 bits.
    fn without_shift(to: FxType, saturate: bool) -> Option<Narrow>
        requires { IsType to }
        ensures ends { IfSome result (λ narrow. HasEnds narrow to saturate) }
        ensures plain { IfSome result (λ narrow. (narrow.scale ≡ pos 1) × (narrow.down ≡ 0)
            × (narrow.bias ≡ pos 0) × (narrow.below ≡ pos 0) × (narrow.even ≡ false)) }
    {
        let FxType::Num { signed, width, .. } = to else {
            return None;
        };
        if width > 60 {
            return None;
        }
        Some(Narrow {
            scale: 1,
            down: 0,
            bias: 0,
            below: 0,
            even: false,
            low: fx_num::lowest(width, signed) as i64,
            high: fx_num::highest(width, signed) as i64,
            saturate,
            way: Way::Any,
        })
    }

    /// The way that the bias and the shift up allow.
    fn rounding_way(self) -> Way
        ensures way { IsWay result self }
        ensures rounds { result ≡ Exact → ⊥ }
    {
        if self.even {
            return Way::Any;
        }
        if self.scale != 1 {
            return Way::Any;
        }
        if self.below != self.bias {
            return Way::Any;
        }
        if self.saturate { Way::Ends } else { Way::Wraps }
    }

    /// The way without a shift down, of numbers that have up to so many bits once they are shifted up.
    fn whole_way(self, bits: u32) -> Way
        requires { bits ≤ 61 }
        ensures way { self.down ≡ 0 → IsWay result self }
        ensures reaches { result ≡ Exact → ReachesBelow self.low bits }
    {
        if self.low <= -(1 << bits) {
            Way::Exact
        } else {
            self.rounding_way()
        }
    }

    /// The conversion to a type of a number of up to so many bits, in units of 2 to the `-frac`, where
    /// 64 bits are enough.
    pub fn new(bits: u32, frac: i16, to: FxType, mode: Rounding, saturate: bool) -> Option<Narrow>
        requires bits { bits ≤ 256 }
        requires low { negsuc 63 ≤ℤ frac }
        requires high { frac ≤ℤ pos 128 }
        requires to { IsType to }
        ensures is { IfSome result (λ narrow. IsNarrow narrow frac to mode saturate) }
        ensures room { IfSome result (λ narrow. HasRoom narrow bits) }
    {
        let Some(mut narrow) = Narrow::without_shift(to, saturate) else {
            return None;
        };
        if let Some(up) = gap(frac, to.frac()) {
            if bits + up > 61 {
                return None;
            }
            narrow.scale = 1 << up;
            narrow.way = narrow.whole_way(bits + up);
            return Some(narrow);
        }
        let Some(down) = gap(to.frac(), frac) else {
            return None;
        };
        if down == 0 {
            return None;
        }
        if bits > 61 {
            return None;
        }
        let (bias, below, even) = bias_of(mode, down);
        narrow.down = down;
        narrow.bias = bias;
        narrow.below = below;
        narrow.even = even;
        narrow.way = narrow.rounding_way();
        Some(narrow)
    }

    /// The conversion of `v`, a number in the units that this was prepared for, with up to as many
    /// bits.
    #[inline(always)]
    pub fn convert(self, v: i64) -> i64
        requires narrow { (frac : ℤ) × (to : FxType) × (mode : Rounding) × (saturate : Bool)
            × IsNarrow self frac to mode saturate }
        requires room { (bits : ℕ) × HasRoom self bits × IsWithin bits v }
        ensures { (from to : FxType) (mode : Rounding) (saturate : Bool)
            → IsNarrow self (frac_of from) to mode saturate
            → Converts v from to mode saturate result }
    {
        match self.way {
            Way::Exact => v * self.scale,
            Way::Wraps => self.wrapped(biased_shift(v, self.down, self.bias, false)),
            Way::Ends => self.nearest(biased_shift(v, self.down, self.bias, false)),
            Way::Any => self.settled(v),
        }
    }

    /// The same, with all that a mode may ask for.
    fn settled(self, v: i64) -> i64
        requires narrow { (frac : ℤ) × (to : FxType) × (mode : Rounding) × (saturate : Bool)
            × IsNarrow self frac to mode saturate }
        requires small { IsSmall (v *ℤ self.scale) }
        ensures { (from to : FxType) (mode : Rounding) (saturate : Bool)
            → IsNarrow self (frac_of from) to mode saturate
            → Converts v from to mode saturate result }
    {
        let scaled = v * self.scale;
        self.stored_value(biased_shift(scaled, self.down, self.bias_for(scaled), self.even))
    }

    /// The bias of a number.
    fn bias_for(self, v: i64) -> i64
        ensures { result ≡ bias_for v self.bias self.below }
    {
        if v < 0 { self.below } else { self.bias }
    }

    /// What the result type stores for a whole number.
    fn stored_value(self, r: i64) -> i64
        requires ends { (to : FxType) × (saturate : Bool) × HasEnds self to saturate }
        requires modest { IsModest r }
        ensures { (to : FxType) (saturate : Bool) → HasEnds self to saturate
            → Settles to saturate r result }
    {
        if self.saturate {
            self.nearest(r)
        } else {
            self.wrapped(r)
        }
    }

    /// The number of the result type that is nearest.
    fn nearest(self, r: i64) -> i64
        ensures { (to : FxType) (saturate : Bool) → HasEnds self to saturate
            → Settles to true r result }
    {
        r.max(self.low).min(self.high)
    }

    /// The number of the result type with the same lowest bits.
    fn wrapped(self, r: i64) -> i64
        requires ends { (to : FxType) × (saturate : Bool) × HasEnds self to saturate }
        requires modest { IsModest r }
        ensures { (to : FxType) (saturate : Bool) → HasEnds self to saturate
            → Settles to false r result }
    {
        ((r - self.low) & (self.high - self.low)) + self.low
    }
}
