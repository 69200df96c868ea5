//! Names as the tables write them. A text is tested byte by byte and then copied into the name, so nothing is
//! allocated.

ghost use Rattle.std.specs.Prelude.{◌≡◌};
ghost use Rattle.std.specs.List.{list_all};
ghost use Rattle.tail_book.specs.Name.{is_name, is_name_byte};
ghost use Rattle.tail_text.specs.NameText.{name_of};

use crate::bad::Bad;
use tail_book::Name;

/// A name: 1 to 16 bytes, the first an ASCII letter or digit, the others letters, digits, `-` or `_`.
/// Any other text is `Bad`.
pub fn name(text: &[u8]) -> Result<Name, Bad>
    ensures { result ≡ name_of text.now }
{
    if !is_name(text) {
        return Err(Bad);
    }
    Ok(Name::new(text))
}

fn is_name(text: &[u8]) -> bool
    ensures { result ≡ is_name text.now }
{
    match text {
        [first, others @ ..] => {
            first.is_ascii_alphanumeric() && others.len() <= 15 && are_name_bytes(others)
        }
        [] => false,
    }
}

fn are_name_bytes(text: &[u8]) -> bool
    ensures { result ≡ list_all is_name_byte text.now }
{
    text.iter().all(|byte| is_name_byte(*byte))
}

fn is_name_byte(byte: u8) -> bool
    ensures { result ≡ is_name_byte byte }
{
    byte.is_ascii_alphanumeric() || byte == b'-' || byte == b'_'
}
