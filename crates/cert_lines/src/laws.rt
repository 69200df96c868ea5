//! Laws over the definitions alone: the contract of each function is the law.

ghost use Rattle.cert_lines.specs.OneSpelling.{ReadLinesAreSpelled, SpelledLinesAreRead, SpelledLinesAreShort};

/// A text that is read as a line is the spelling of that line: so each line has one spelling.
pub fn read_lines_are_spelled()
    ensures { ReadLinesAreSpelled }
{}

/// The spelling of a line is read as that line: so a text is bad exactly where no line is spelled so.
pub fn spelled_lines_are_read()
    ensures { SpelledLinesAreRead }
{}

/// A spelling has at most 200 bytes, and no newline.
pub fn spelled_lines_are_short()
    ensures { SpelledLinesAreShort }
{}
