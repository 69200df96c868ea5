//! The words of a run under quotas, read by hand: which tables and which quotas. A dash in front means nothing here.

ghost use Rattle.std.specs.Prelude.{◌≡◌, option_map};
ghost use Rattle.run_frame.specs.Spelled.{spelled};
ghost use Rattle.tailplan.specs.QuotaWords.{is_quota, quota_of};
ghost use Rattle.tailplan.specs.inside.FourTexts.{four_names_seen};

use crate::four_texts::{FourNames, names_behind};

/// Whether the word behind the program's name asks for quotas.
pub fn is_quota(words: &[String]) -> bool
    ensures { result ≡ is_quota (spelled words.now) }
{
    match words {
        [_, word, ..] => word.as_bytes() == b"quota".as_slice(),
        _ => false,
    }
}

/// The names that the words give where they ask for quotas, or nothing where they ask for none, or not rightly. The words
/// begin with the program's name.
#[tactic(auto, unfolding(crate::specs::QuotaWords::quota_of))]
pub fn quota_of<'a>(words: &'a [String]) -> Option<FourNames<'a>>
    ensures { option_map four_names_seen result ≡ quota_of (spelled words.now) }
{
    if !is_quota(words) {
        return None;
    }
    names_behind(words)
}
