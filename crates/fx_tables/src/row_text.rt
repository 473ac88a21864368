ghost use Rattle.std.specs.Prelude.{◌≡◌, ◌+◌, ◌*◌, ◌^◌, ◌≤◌, ◌<◌, ◌++◌, codes, length, map, drop, vec_len, IfOk, All};
ghost use Rattle.fx_tables.specs.Response.{text_of_field, response_line};

use crate::field::hits;
use crate::numeral::put_number;
use crate::table::Column;
use fx_io::OutOfMemory;
use std::alloc::Global;

/// The most bytes of a field and the byte before it.
const FIELD_BYTES: usize = 41;

/// Writes the lines of a response, in room that it makes once (own). What callers see of it are the
/// periods of its columns, `periods_of`.
#[derive(Drop)]
pub struct RowText {
    periods: Vec<u32>,
    bytes: Vec<u8>,
    ghost has_room: { vec_len bytes ≡ vec_len periods * 41 + 1 },
    ghost has_hits: { All (λ period. 0 < period) periods.items },
}

impl RowText {
    ghost use Rattle.std.specs.Borrow.{sem, follows_so};
    ghost use Rattle.std.specs.Prelude.{⊤};
    ghost use mathlib.Core.Option.{none};
    ghost use Rattle.fx_tables.specs.contracts.row_text.RowText.{the_row};
    ghost use Rattle.fx_tables.specs.RowText.{periods_of};

    /// Makes the room for a line of these columns.
    pub fn new(alloc: Global, columns: &[Column]) -> Result<RowText, OutOfMemory>
        requires periods { All (λ column. 0 < column.period) columns.now }
        requires few_columns { length columns.now < 2 ^ 32 }
        ensures { IfOk result (λ text.
            periods_of text ≡ map (λ column. column.period) columns.now) }
    {
        let mut periods = Vec::new(alloc);
        for column in columns {
            periods.push(column.period)?;
        }
        let bytes = vec![in alloc; 0u8; columns.len() * FIELD_BYTES + 1]?;
        Ok(RowText { periods, bytes })
    }

    /// Frees the room, so that crates above needn't prove how.
    pub fn discard(self) {
        drop(self);
    }

    /// The line of a sample: per column its value where a number stands, else `-`, with one space
    /// between, and a newline. It takes no memory.
    pub fn line(&mut self, t: u64, values: &[i128]) -> &[u8]
        requires { length values.now ≡ length (periods_of self.old) }
        ensures line { result.now ≡ response_line (periods_of self.old) t values.now }
        ensures* kept { sem 𝓛 (follows_so the_row the_row self.entry.ghost_name none (λ _ _. ⊤)
            (λ after. periods_of after ≡ periods_of self.old)) }
    {
        let start = write_line(&mut self.bytes, &self.periods, t, values);
        &self.bytes[start..]
    }
}

/// Writes a line at the end of the bytes, and tells where it starts. It goes from the last byte to
/// the first, as the digits of a number come.
fn write_line(bytes: &mut [u8], periods: &[u32], t: u64, values: &[i128]) -> usize
    requires room { length periods.now * 41 < length bytes.old }
    requires periods { All (λ period. 0 < period) periods.now }
    requires values { length values.now ≡ length periods.now }
    ensures within { result ≤ length bytes.new }
    ensures line { drop result bytes.new ≡ response_line periods.now t values.now }
{
    let mut start = bytes.len() - 1;
    bytes[start] = b'\n';
    let mut k = periods.len();
    while k > 0 {
        k -= 1;
        start = put_field(bytes, start, hits(periods[k], t), values[k]);
    }
    if periods.is_empty() { start } else { start + 1 }
}

/// Writes a space and a field behind it, so that the field ends before a place, and tells where the
/// space is.
#[inline(always)]
fn put_field(bytes: &mut [u8], end: usize, hit: bool, value: i128) -> usize
    requires room { 41 ≤ end }
    requires within { end ≤ length bytes.old }
    ensures before { result < end }
    ensures near { end ≤ result + 41 }
    ensures text { drop result bytes.new
        ≡ codes " " ++ (text_of_field hit value ++ drop end bytes.old) }
{
    let start = put_text(bytes, end, hit, value);
    bytes[start - 1] = b' ';
    start - 1
}

/// Writes a field so that it ends before a place, and tells where it starts.
#[inline(always)]
fn put_text(bytes: &mut [u8], end: usize, hit: bool, value: i128) -> usize
    requires room { 40 ≤ end }
    requires within { end ≤ length bytes.old }
    ensures before { result ≤ end }
    ensures near { end ≤ result + 40 }
    ensures text { drop result bytes.new ≡ text_of_field hit value ++ drop end bytes.old }
{
    if hit {
        return put_number(bytes, end, value);
    }
    bytes[end - 1] = b'-';
    end - 1
}
