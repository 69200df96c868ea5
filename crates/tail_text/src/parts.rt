//! The parts of a text between bytes of one value: the items of a field between spaces, or the lines of a text between
//! newlines.
//!
//! A part is cut off when it is asked for, so a text is passed over once, and nothing is copied.

ghost use Rattle.std.specs.Prelude.{◌≡◌, ◌∷◌, ◌==◌, [], length, position, MatchOption};
ghost use Rattle.tail_text.specs.Parts.{parts_of};

use std::marker::Model;

/// The parts of a text that are still to be taken. Contracts see the list of them.
#[derive(Debug, Drop)]
pub struct Parts<'a> {
    byte: u8,
    rest: Option<&'a [u8]>,
}

impl<'a> Model for Parts<'a> {
    ghost use Rattle.std.specs.Prelude.{ℕ, List};
    ghost use Rattle.tail_text.specs.inside.PartsLeft.{parts_left};

    ghost Value = { List (List ℕ) };

    ghost view = { λ p. parts_left p.byte p.rest };
}

impl<'a> Parts<'a> {
    /// All the parts of the text, which ends one part and begins the next where it has the byte.
    pub fn new(text: &'a [u8], byte: u8) -> Parts<'a>
        ensures { result ≡ parts_of byte text.now }
    {
        Parts {
            byte,
            rest: Some(text),
        }
    }

    /// Takes the first part that is left.
    pub fn take(&mut self) -> Option<&'a [u8]>
        ensures { MatchOption result ((self.old ≡ []) × (self.new ≡ [])) (λ part. self.old ≡ part.now ∷ self.new) }
    {
        let rest = self.rest?;
        match place_of(rest, self.byte) {
            Some(at) => {
                self.rest = Some(&rest[at + 1..]);
                Some(&rest[..at])
            }
            None => {
                self.rest = None;
                Some(rest)
            }
        }
    }

    /// Whether no part is left.
    pub fn is_done(&self) -> bool
        ensures { result ≡ (length self.now == 0) }
    {
        self.rest.is_none()
    }
}

fn place_of(text: &[u8], byte: u8) -> Option<usize>
    ensures { result ≡ position (λ b. b == byte) text.now }
{
    text.iter().position(|b| *b == byte)
}
