//! Numbers, measures and names as the fields of a record spell them.
ghost use Rattle.std.specs.Prelude.{◌≡◌, true};
ghost use Rattle.csv.specs.Records.{fields_of};
ghost use Rattle.script_form.specs.Fields.{field, in_range, is_below, is_name, is_star, measure_of, number_of, value_of};

use crate::limits::MOST_BYTES;
use csv::ByteRecord;

/// The field at a place, empty where there is none.
pub fn field(row: &ByteRecord, i: usize) -> &[u8]
    ensures { result.now ≡ field (fields_of row.now) i }
{
    row.get(i).unwrap_or(&[])
}

/// A number: 1 to 20 decimal digits.
pub fn number(text: &[u8]) -> Option<u128>
    ensures { result ≡ number_of text.now }
{
    if text.is_empty() || text.len() > 20 {
        return None;
    }
    let mut value: u128 = 0;
    for digit in text {
        if !digit.is_ascii_digit() {
            return None;
        }
        value = 10 * value + u128::from(*digit - b'0');
    }
    Some(value)
}

/// Whether this is a number from `low` to `high`.
pub(crate) fn in_range(text: &[u8], low: u128, high: u128) -> bool
    ensures { result ≡ in_range text.now low high }
{
    match number(text) {
        Some(value) => low <= value && value <= high,
        None => false,
    }
}

/// Whether this is a number below a limit.
pub(crate) fn is_below(text: &[u8], limit: u128) -> bool
    ensures { result ≡ is_below text.now limit }
{
    match number(text) {
        Some(value) => value < limit,
        None => false,
    }
}

/// The value of a number below 2^8.
#[tactic(auto, using(crate::proofs::NumberFacts::value_below))]
pub(crate) fn value_u8(text: &[u8]) -> u8
    requires { is_below text.now 256 ≡ true }
    ensures { result ≡ value_of text.now }
{
    number(text).unwrap_or(0) as u8
}

/// The value of a number below 2^32.
#[tactic(auto, using(crate::proofs::NumberFacts::value_below))]
pub(crate) fn value_u32(text: &[u8]) -> u32
    requires { is_below text.now 4294967296 ≡ true }
    ensures { result ≡ value_of text.now }
{
    number(text).unwrap_or(0) as u32
}

/// A measure: a number with one `-` in front or without, from -2^63 to 2^63 - 1.
pub fn measure(text: &[u8]) -> Option<i64>
    ensures { result ≡ measure_of text.now }
{
    if let [b'-', digits @ ..] = text {
        let value = number(digits)?;
        if value <= 1 << 63 {
            Some((-(value as i128)) as i64)
        } else {
            None
        }
    } else {
        let value = number(text)?;
        if value < 1 << 63 {
            Some(value as i64)
        } else {
            None
        }
    }
}

/// Whether this is the one byte `*`, which stands for all concepts.
pub fn is_star(text: &[u8]) -> bool
    ensures { result ≡ is_star text.now }
{
    text == b"*".as_slice()
}

/// Whether this can be the name of a dimension or a concept: 1 to 64 bytes, no vertical bar among
/// them, and not the one byte `*`.
pub fn is_name(text: &[u8]) -> bool
    ensures { result ≡ is_name text.now }
{
    !text.is_empty() && text.len() <= MOST_BYTES && !text.contains(&b'|') && !is_star(text)
}
