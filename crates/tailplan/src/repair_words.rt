//! The words of a repair, read by hand: which tables and which published plan. A dash in front means nothing here.

ghost use Rattle.std.specs.Prelude.{◌≡◌, option_map};
ghost use Rattle.run_frame.specs.Spelled.{spelled};
ghost use Rattle.tailplan.specs.RepairWords.{is_repair, repair_of};
ghost use Rattle.tailplan.specs.inside.FourTexts.{four_names_seen};

use crate::four_texts::{FourNames, names_behind};

/// Whether the word behind the program's name asks for a repair.
pub fn is_repair(words: &[String]) -> bool
    ensures { result ≡ is_repair (spelled words.now) }
{
    match words {
        [_, word, ..] => word.as_bytes() == b"repair".as_slice(),
        _ => false,
    }
}

/// The names that the words give where they ask for a repair, or nothing where they ask for none, or not rightly. The words
/// begin with the program's name.
#[tactic(auto, unfolding(crate::specs::RepairWords::repair_of))]
pub fn repair_of<'a>(words: &'a [String]) -> Option<FourNames<'a>>
    ensures { option_map four_names_seen result ≡ repair_of (spelled words.now) }
{
    if !is_repair(words) {
        return None;
    }
    names_behind(words)
}
