ghost use Rattle.std.specs.Prelude.{◌≡◌, ◌↔◌, ◌<◌, ◌*◌, ◌^◌, ℕ, IfSome, None, negsuc, true};
ghost use Rattle.std.specs.Int.{int_gap};
ghost use Rattle.dg_model.specs.Periods.{units_of};
ghost use Rattle.dg_rates.specs.inner.Units.{IsAligned, IsTimes, Shows};

use fx_type::Decimal;

/// The greatest multiple of the base period that a period may be.
const MOST_TIMES: u128 = 4096;

/// The power of ten by which the digits count units of 10^-36.
fn rank_of(decimal: Decimal) -> u32
    ensures value { result ≡ int_gap (negsuc 35) decimal.exponent }
{
    (i32::from(decimal.exponent) + 36) as u32
}

/// Digits with so many zeros behind them, where they have room in 128 bits.
fn scaled_digits(digits: u64, zeros: u32) -> Option<u128>
    requires { 0 < digits }
    ensures { Shows (digits * 10 ^ zeros) result }
{
    if zeros > 38 {
        return None;
    }
    u128::from(digits).checked_mul(10u128.pow(zeros))
}

/// How many of one unit two periods are, where that has room in 128 bits.
pub struct Aligned {
    first: Option<u128>,
    second: Option<u128>,
}

/// Two periods in one unit.
fn in_one_unit(first: Decimal, second: Decimal) -> Aligned
    requires first { 0 < first.digits }
    requires second { 0 < second.digits }
    ensures { IsAligned (units_of first) (units_of second) result }
{
    let (rank, other) = (rank_of(first), rank_of(second));
    if rank <= other {
        Aligned {
            first: Some(u128::from(first.digits)),
            second: scaled_digits(second.digits, other - rank),
        }
    } else {
        Aligned {
            first: scaled_digits(first.digits, rank - other),
            second: Some(u128::from(second.digits)),
        }
    }
}

/// Whether a period is shorter than another.
pub fn is_less(period: Decimal, other: Decimal) -> bool
    requires period { 0 < period.digits }
    requires other { 0 < other.digits }
    ensures { (result ≡ true) ↔ (units_of period < units_of other) }
{
    let Aligned { first, second } = in_one_unit(period, other);
    match first {
        Some(first) => match second {
            Some(second) => first < second,
            None => true,
        },
        None => false,
    }
}

/// How many times the second number the first is, where it is a whole number of times and at most
/// 4096.
#[tactic(auto, using(crate::proofs::OneUnit::no_times))]
fn quotient(number: u128, divisor: u128) -> Option<u32>
    requires { 0 < divisor }
    ensures some { IfSome result (λ times. IsTimes number divisor times) }
    ensures none { result ≡ None → (times : ℕ) → ¬ IsTimes number divisor times }
{
    let times = number / divisor;
    if number % divisor != 0 {
        return None;
    }
    if times > MOST_TIMES {
        return None;
    }
    Some(times as u32)
}

/// How many times the base period a period is, where it is a whole number of times and at most
/// 4096.
pub fn times_of(period: Decimal, base: Decimal) -> Option<u32>
    requires period { 0 < period.digits }
    requires base { 0 < base.digits }
    ensures some { IfSome result (λ times. IsTimes (units_of period) (units_of base) times) }
    ensures none { result ≡ None → (times : ℕ) → ¬ IsTimes (units_of period) (units_of base) times }
{
    let Aligned { first, second } = in_one_unit(period, base);
    let Some(first) = first else {
        return None;
    };
    let Some(second) = second else {
        return None;
    };
    quotient(first, second)
}
