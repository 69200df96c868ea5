//! Whole numbers in digits. A zero in front is refused, so each number has one spelling. Digits are taken one by one, and
//! the first that would pass the greatest number ends the reading, so no sum wraps.

ghost use Rattle.std.specs.Prelude.{◌≡◌, ◌≤◌, IfOk};
ghost use Rattle.std.specs.Char.{is_ascii_digit};
ghost use Rattle.std.specs.List.{list_all};
ghost use Rattle.tail_text.specs.Number.{number_of, has_leading_zero, is_numeral};

use crate::bad::Bad;

/// A whole number of at most `max`, in digits with no zero in front. Any other text is `Bad`.
pub fn number(text: &[u8], max: u64) -> Result<u64, Bad>
    ensures value { result ≡ number_of max text.now }
    ensures range { IfOk result (λ n. n ≤ max) }
{
    if !is_numeral(text) {
        return Err(Bad);
    }
    let mut value = 0u64;
    for digit in text {
        let next = value as u128 * 10 + (*digit - b'0') as u128;
        if next > max as u128 {
            return Err(Bad);
        }
        value = next as u64;
    }
    Ok(value)
}

fn is_numeral(text: &[u8]) -> bool
    ensures { result ≡ is_numeral text.now }
{
    !text.is_empty() && !has_leading_zero(text) && are_digits(text)
}

fn has_leading_zero(text: &[u8]) -> bool
    ensures { result ≡ has_leading_zero text.now }
{
    text.len() > 1 && text[0] == b'0'
}

fn are_digits(text: &[u8]) -> bool
    ensures { result ≡ list_all is_ascii_digit text.now }
{
    text.iter().all(|digit| digit.is_ascii_digit())
}
