ghost use Rattle.std.specs.Prelude.{◌≡◌, ◌+◌, ◌≤◌, IfSome, drop, length};
ghost use Rattle.cmd_explore.specs.RangeWord.{ends_of as ends_of_word, first_of as first_of_mark, plain_number as plain_number_of, range_of};
ghost use Rattle.hw_explore.specs.Range.{IsRange};

use fx_text::read_short;
use hw_explore::{Ends, Range};

/// Where a byte stands first, or the length.
fn first_of(mark: u8, word: &[u8]) -> usize
    ensures is { result ≡ first_of_mark mark word.now }
    ensures within { result ≤ length word.now }
{
    for place in 0..word.len() {
        if word[place] == mark {
            return place;
        }
    }
    word.len()
}

/// The number of one to four digits, without a zero in front of others.
pub fn plain_number(word: &[u8]) -> Option<u64>
    ensures { result ≡ plain_number_of word.now }
{
    if word.is_empty() || word.len() > 4 {
        return None;
    }
    if word.len() > 1 && word[0] == b'0' {
        return None;
    }
    read_short(word)
}

/// The ends of `A..B`.
fn ends_of(word: &[u8]) -> Option<Ends>
    ensures { result ≡ ends_of_word word.now }
{
    let place = first_of(b'.', word);
    if !word[place..].starts_with(b"..") {
        return None;
    }
    let Some(low) = plain_number(&word[..place]) else {
        return None;
    };
    let Some(high) = plain_number(&word[place + 2..]) else {
        return None;
    };
    Some(Ends { low, high })
}

/// What stands behind a place.
fn behind(place: usize, word: &[u8]) -> &[u8]
    requires { place ≤ length word.now }
    ensures { result.now ≡ drop (place + 1) word.now }
{
    if place < word.len() {
        &word[place + 1..]
    } else {
        &word[place..]
    }
}

/// The range that a word names, where it has the shape `A..B,C..D`: 1 to 1024 clocks, 0 to 64
/// multipliers, without zeros in front, and at most 4096 pairs.
pub fn read_range(word: &[u8]) -> Option<Range>
    ensures is { result ≡ range_of word.now }
    ensures range { IfSome result IsRange }
{
    let place = first_of(b',', word);
    let Some(cycles) = ends_of(&word[..place]) else {
        return None;
    };
    let Some(multipliers) = ends_of(behind(place, word)) else {
        return None;
    };
    Range::between(cycles, multipliers)
}
