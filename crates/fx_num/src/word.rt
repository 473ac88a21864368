//! Words and their numbers, by masks and shifts.
ghost use Rattle.std.specs.Prelude.{◌≡◌, ◌+◌, ◌*◌, ◌^◌, ◌<◌, ◌≤◌, ◌↔◌, IsTrue, pos, ◌*ℤ◌, FitsSigned};
ghost use Rattle.std.specs.Int.{w128};
ghost use Rattle.std.specs.Option.{SomeIff};
ghost use Rattle.math_num.specs.Word.{IsWord, word_lowest, word_highest, InWord, IsCongruent, IsWrapped};

/// Whether a word has this width and sign. Source: own.
pub fn is_word(width: u8, signed: bool) -> bool
    ensures { IsTrue result ↔ IsWord width signed }
{
    if signed {
        2 <= width && width <= 128
    } else {
        1 <= width && width <= 127
    }
}

/// The number whose lowest `width` bits are set.
fn mask(width: u8) -> u128
    requires low { 1 ≤ width }
    requires high { width ≤ 128 }
    ensures { result + 1 ≡ 2 ^ width }
{
    u128::MAX >> (128 - width)
}

/// `v` in two's complement, modulo 2 to the `width`. Source: own.
pub fn to_bits(v: i128, width: u8, signed: bool) -> u128
    requires { IsWord width signed }
    ensures below { result < 2 ^ width }
    ensures congruent { IsCongruent (pos result) v (2 ^ width) }
{
    let _ = signed;
    v.cast_unsigned() & mask(width)
}

/// The number of the word whose bits are `bits`. Source: own.
pub fn from_bits(bits: u128, width: u8, signed: bool) -> i128
    requires word { IsWord width signed }
    requires below { bits < 2 ^ width }
    ensures { IsWrapped (pos bits) width signed result }
{
    let highest = mask(width);
    if !signed {
        bits as i128
    } else if bits <= highest / 2 {
        bits as i128
    } else {
        !((highest - bits) as i128)
    }
}

/// The one number of the word that is congruent to `v` modulo 2 to the `width`. Source: own.
pub fn wrap(v: i128, width: u8, signed: bool) -> i128
    requires { IsWord width signed }
    ensures { IsWrapped v width signed result }
{
    let spare = 128 - width;
    if signed {
        (v << spare) >> spare
    } else {
        ((v.cast_unsigned() << spare) >> spare) as i128
    }
}

/// The greatest number of the word. Source: own.
pub fn highest(width: u8, signed: bool) -> i128
    requires { IsWord width signed }
    ensures { result ≡ word_highest width signed }
{
    if signed {
        mask(width - 1) as i128
    } else {
        mask(width) as i128
    }
}

/// The least number of the word. Source: own.
pub fn lowest(width: u8, signed: bool) -> i128
    requires { IsWord width signed }
    ensures { result ≡ word_lowest width signed }
{
    if signed {
        -1 - mask(width - 1) as i128
    } else {
        0
    }
}

/// Whether `v` is a number of the word. Source: own.
pub fn fits(v: i128, width: u8, signed: bool) -> bool
    requires { IsWord width signed }
    ensures { IsTrue result ↔ InWord width signed v }
{
    lowest(width, signed) <= v && v <= highest(width, signed)
}

/// `v` times 2 to the power `by`; `None` exactly where that is no `i128`. Source: own.
pub fn shift_up(v: i128, by: u32) -> Option<i128>
    ensures { SomeIff result (FitsSigned w128 (v *ℤ pos (2 ^ by))) (v *ℤ pos (2 ^ by)) }
{
    if by < 128 {
        let shifted = v << by;
        if shifted >> by == v {
            Some(shifted)
        } else {
            None
        }
    } else if v == 0 {
        Some(0)
    } else {
        None
    }
}
