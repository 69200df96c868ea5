//! The lines that are printed where the words are refused: all words that the program takes. They do not say which were
//! wrong.

ghost use Rattle.std.specs.Prelude.{◌≡◌};
ghost use Rattle.tailview.specs.Usage.{shortage_usage_line, usage_line};

/// The words that the program takes, as one line.
pub fn usage_line() -> &'static [u8]
    ensures { result.now ≡ usage_line }
{
    b"usage: tailview TIMETABLE FLEET RULES --plan FILE [--moved OLDPLAN] [--curfews AIRPORT] [--by-day] [--html]\n"
}

/// The words that it takes where they ask for the picture of a shortage, as one line.
pub fn shortage_usage_line() -> &'static [u8]
    ensures { result.now ≡ shortage_usage_line }
{
    b"usage: tailview --shortage FILE TIMETABLE FLEET RULES [--curfews AIRPORT] [--html]\n"
}
