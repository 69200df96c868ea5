//! Numbers of two digits at a place of a text, of which clocks and stamps are made. Whether they are digits is asked
//! first, so that reading them cannot fail.

ghost use Rattle.std.specs.Prelude.{◌≡◌, ◌+◌, ◌<◌, length, true};
ghost use Rattle.tail_text.specs.Pair.{pair_at, are_digits_at};

/// The number that the two digits write.
pub fn pair_at(text: &[u8], at: usize) -> u16
    requires within { at + 1 < length text.now }
    requires digits { are_digits_at text.now at ≡ true }
    ensures value { result ≡ pair_at text.now at }
    ensures small { result < 100 }
{
    (text[at] - b'0') as u16 * 10 + (text[at + 1] - b'0') as u16
}

/// Whether two digits stand there.
pub fn are_digits_at(text: &[u8], at: usize) -> bool
    requires { at + 1 < length text.now }
    ensures { result ≡ are_digits_at text.now at }
{
    text[at].is_ascii_digit() && text[at + 1].is_ascii_digit()
}
