ghost use Rattle.std.specs.Prelude.{◌≡◌, ◌≤◌};
ghost use Rattle.std.specs.Option.{option_map};
ghost use Rattle.cmd_sample.specs.Summary.{equal_at as equal_at_of, equal_count as equal_count_of, equal_in as equal_in_of, field_at as field_at_of, piece_at as piece_at_of};

/// How many base samples a response has.
const SAMPLES: usize = 8;

/// The piece with this number, from 0, of those between marks.
fn piece_at(mark: u8, text: &[u8], place: usize) -> Option<&[u8]>
    ensures { option_map (λ piece. piece.now) result ≡ piece_at_of mark text.now place }
{
    text.split(|byte| *byte == mark).nth(place)
}

/// The field of a base sample and a column.
fn field_at(text: &[u8], sample: usize, column: usize) -> Option<&[u8]>
    ensures { option_map (λ field. field.now) result ≡ field_at_of text.now sample column }
{
    let Some(line) = piece_at(b'\n', text, sample) else {
        return None;
    };
    piece_at(b' ', line, column)
}

/// 1 where the field of a base sample and a column stands in both responses and isn't empty, else 0.
fn equal_at(response: &[u8], told: &[u8], sample: usize, column: usize) -> u64
    ensures is { result ≡ equal_at_of response.now told.now sample column }
    ensures few { result ≤ 1 }
{
    let Some(field) = field_at(response, sample, column) else {
        return 0;
    };
    let Some(other) = field_at(told, sample, column) else {
        return 0;
    };
    u64::from(!field.is_empty() && field == other)
}

/// How many fields of a base sample are equal at hits.
fn equal_in(response: &[u8], told: &[u8], sample: usize) -> u64
    ensures is { result ≡ equal_in_of response.now told.now sample }
    ensures few { result ≤ 2 }
{
    let equal = equal_at(response, told, sample, 0);
    if sample % 2 == 0 {
        return equal + equal_at(response, told, sample, 1);
    }
    equal
}

/// In how many fields at hits two responses of a sample are equal: `Out` has eight hits, `Slow` four.
pub fn equal_count(response: &[u8], told: &[u8]) -> u64
    ensures { result ≡ equal_count_of response.now told.now }
{
    let mut equal = 0;
    for sample in 0..SAMPLES {
        equal += equal_in(response, told, sample);
    }
    equal
}
