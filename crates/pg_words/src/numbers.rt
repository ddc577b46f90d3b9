//! Numbers in the arguments of a command.
ghost use Rattle.std.specs.Prelude.{◌≡◌, ◌≤◌, IfSome};
ghost use Rattle.pg_types.specs.Inside.reading.Parts.{number_from};
ghost use Rattle.pg_words.specs.NumbersWithin.{number_within as number_within_of};
ghost use Rattle.pg_words.specs.Inside.Numbers.{at_most};

/// The value of decimal digits; none where there is another byte, or the value is greater than
/// `most`.
fn digits_value(digits: &[u8], most: u32) -> Option<u32>
    ensures value { result ≡ at_most most (number_from 0 digits.now) }
    ensures within { IfSome result (λ n. n ≤ most) }
{
    let mut value = 0;
    'digits: for digit in digits {
        if !digit.is_ascii_digit() {
            return None;
        }
        let longer = u64::from(value) * 10 + u64::from(digit - b'0');
        if longer > u64::from(most) {
            return None;
        }
        value = longer as u32;
    }
    Some(value)
}

/// The number that an argument of 1 to `digits` decimal digits writes, where it is at least `least`
/// and at most `most`.
pub fn number_within(argument: &str, digits: usize, least: u32, most: u32) -> Option<u32>
    ensures value { result ≡ number_within_of digits least most argument.now }
    ensures within { IfSome result (λ n. (least ≤ n) × (n ≤ most)) }
{
    if argument.is_empty() || argument.len() > digits {
        return None;
    }
    let number = digits_value(argument.as_bytes(), most)?;
    if number >= least { Some(number) } else { None }
}
