//! Weights in braces.
ghost use Rattle.std.specs.Prelude.{◌≡◌, ◌<◌, ◌≤◌, nat_lt, length, MatchOption, IfSome, Some, None};
ghost use Rattle.pg_translate.specs.Inside.items.Kinds.{weight_at};
ghost use Rattle.pg_translate.specs.Tokens as token;

use pg_types::{WEIGHT_MAX, Weight};

/// The most digits of a weight in braces.
const WEIGHT_DIGITS_MAX: usize = 4;

/// Whether the value of the digits is a weight: it is not 0.
fn is_weight(value: Weight) -> bool
    ensures { result ≡ nat_lt 0 value }
{
    value > 0
}

/// The weight in braces that begins `text`, with the size of its own text: a brace, one to four
/// digits whose value is not 0, and a brace.
pub(crate) fn weight_of(text: &[u8]) -> Option<(Weight, usize)>
    ensures value { MatchOption result (weight_at text.now ≡ None)
        (λ w. weight_at text.now ≡ Some (token.Weight w.0, w.1)) }
    ensures range { IfSome result (λ w. (0 < w.0) × (w.0 ≤ WEIGHT_MAX)) }
    ensures within { IfSome result (λ w. (0 < w.1) × (w.1 ≤ length text.now)) }
{
    if text.is_empty() || text[0] != b'{' {
        return None;
    }
    let mut value = 0;
    let mut size = 1;
    'digits: while size < text.len() && size <= WEIGHT_DIGITS_MAX && text[size].is_ascii_digit() {
        value = value * 10 + (text[size] - b'0') as Weight;
        size += 1;
    }
    if size < text.len() && text[size] == b'}' && is_weight(value) {
        Some((value, size + 1))
    } else {
        None
    }
}
