ghost use Rattle.std.specs.Prelude.{◌≡◌, ◌+◌, ◌≤◌, ◌<◌, ◌++◌, codes, length, drop, if◌then◌else◌};
ghost use Rattle.std.specs.Fmt.{decimal, signed_decimal};

use itoa::{Buffer, write_digits};

/// Writes a number so that it ends before a place, and tells where it starts.
#[inline(always)]
pub(crate) fn put_number(bytes: &mut [u8], end: usize, value: i128) -> usize
    requires room { 40 ≤ end }
    requires within { end ≤ length bytes.old }
    ensures before { result ≤ end }
    ensures near { end ≤ result + 40 }
    ensures text { drop result bytes.new ≡ signed_decimal value ++ drop end bytes.old }
{
    let start = put_magnitude(bytes, end, value.unsigned_abs());
    put_minus(bytes, start, value < 0)
}

/// Puts a minus before a place where one is wanted. It does not branch on that, since whether a
/// number is negative is seldom foreseen.
#[inline(always)]
fn put_minus(bytes: &mut [u8], start: usize, wanted: bool) -> usize
    requires room { 0 < start }
    requires within { start ≤ length bytes.old }
    ensures before { result ≤ start }
    ensures near { start ≤ result + 1 }
    ensures text { drop result bytes.new
        ≡ (if wanted then codes "-" ++ drop start bytes.old else drop start bytes.old) }
{
    bytes[start - 1] = b'-';
    start - usize::from(wanted)
}

/// Writes the digits of a number so that they end before a place, and tells where they start.
#[inline(always)]
fn put_magnitude(bytes: &mut [u8], end: usize, magnitude: u128) -> usize
    requires room { 40 ≤ end }
    requires within { end ≤ length bytes.old }
    ensures start { result + length (decimal magnitude) ≡ end }
    ensures text { drop result bytes.new ≡ decimal magnitude ++ drop end bytes.old }
{
    if magnitude < 1000 {
        put_short(bytes, end, magnitude as u32)
    } else if magnitude <= u128::from(u64::MAX) {
        write_digits(magnitude as u64, bytes, end)
    } else {
        put_wide(bytes, end, magnitude)
    }
}

/// Writes up to three digits. It writes three and tells where the first that counts is, since how
/// many there are is seldom foreseen.
#[inline(always)]
fn put_short(bytes: &mut [u8], end: usize, number: u32) -> usize
    requires short { number < 1000 }
    requires room { 3 ≤ end }
    requires within { end ≤ length bytes.old }
    ensures start { result + length (decimal number) ≡ end }
    ensures text { drop result bytes.new ≡ decimal number ++ drop end bytes.old }
{
    let tens = number / 10;
    let hundreds = tens / 10;
    bytes[end - 1] = b'0' + (number - tens * 10) as u8;
    bytes[end - 2] = b'0' + (tens - hundreds * 10) as u8;
    bytes[end - 3] = b'0' + hundreds as u8;
    end - 1 - usize::from(tens > 0) - usize::from(hundreds > 0)
}

/// Writes the digits of a number of any size.
fn put_wide(bytes: &mut [u8], end: usize, number: u128) -> usize
    requires room { 40 ≤ end }
    requires within { end ≤ length bytes.old }
    ensures start { result + length (decimal number) ≡ end }
    ensures text { drop result bytes.new ≡ decimal number ++ drop end bytes.old }
{
    let mut buffer = Buffer::new();
    let digits = buffer.format(number).as_bytes();
    let start = end - digits.len();
    bytes[start..end].copy_from_slice(digits);
    start
}
