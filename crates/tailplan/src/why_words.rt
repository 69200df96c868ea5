//! The words that ask why no plan is legal, read by hand: which tables. A dash in front means nothing here.

ghost use Rattle.std.specs.Prelude.{◌≡◌, option_map};
ghost use Rattle.run_frame.specs.Spelled.{spelled};
ghost use Rattle.run_frame.specs.inside.TableFiles.{names_seen};
ghost use Rattle.tailplan.specs.WhyWords.{is_why, why_of};

use run_frame::TableNames;

/// Whether the word behind the program's name asks why no plan is legal.
pub fn is_why(words: &[String]) -> bool
    ensures { result ≡ is_why (spelled words.now) }
{
    match words {
        [_, word, ..] => word.as_bytes() == b"why".as_slice(),
        _ => false,
    }
}

/// The names of the tables where the words ask why no plan of them is legal, or nothing where they ask for something else, or not
/// rightly. The words begin with the program's name.
#[tactic(auto, unfolding(crate::specs::WhyWords::why_of))]
pub fn why_of<'a>(words: &'a [String]) -> Option<TableNames<'a>>
    ensures { option_map names_seen result ≡ why_of (spelled words.now) }
{
    if !is_why(words) {
        return None;
    }
    match words {
        [_, _, timetable, fleet, rules] => Some(TableNames {
            timetable: timetable.as_str(),
            fleet: fleet.as_str(),
            rules: rules.as_str(),
        }),
        _ => None,
    }
}
