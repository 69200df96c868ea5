//! The lines of a text, one after the other.
//!
//! They are the parts between newlines. What stands behind the last newline is a line only where it is not empty, and
//! then it has no newline of its own.

ghost use Rattle.std.specs.Prelude.{◌≡◌, ◌∷◌, [], MatchOption};
ghost use Rattle.plan_report.specs.TextLines.{lines_of};

use std::marker::Model;
use tail_text::Parts;

/// A line without its newline, and whether it has one. Contracts see the record of both.
#[derive(Drop)]
pub struct TextLine<'a> {
    pub text: &'a [u8],
    pub ends: bool,
}

impl<'a> Model for TextLine<'a> {
    ghost use Rattle.plan_report.specs.TextLines.{LineSeen};

    ghost Value = { LineSeen };

    ghost view = { λ l. record { text = l.text.now; ends = l.ends } };
}

/// The lines of a text that are still to be taken. Contracts see the list of them.
#[derive(Drop)]
pub struct TextLines<'a> {
    parts: Parts<'a>,
}

impl<'a> Model for TextLines<'a> {
    ghost use Rattle.std.specs.Prelude.{List};
    ghost use Rattle.plan_report.specs.TextLines.{LineSeen, lines_among};

    ghost Value = { List LineSeen };

    ghost view = { λ l. lines_among l.parts };
}

impl<'a> TextLines<'a> {
    /// All the lines of the text.
    pub fn new(text: &'a [u8]) -> TextLines<'a>
        ensures { result ≡ lines_of text.now }
    {
        TextLines {
            parts: Parts::new(text, b'\n'),
        }
    }

    /// Takes the first line that is left.
    pub fn take(&mut self) -> Option<TextLine<'a>>
        ensures { MatchOption result (self.old ≡ []) (λ line. self.old ≡ line ∷ self.new) }
    {
        let text = self.parts.take()?;
        let ends = !self.parts.is_done();
        if !ends && text.is_empty() {
            return None;
        }
        Some(TextLine { text, ends })
    }
}
