//! Laws over the definitions alone: the contract of each function is the law.

ghost use Rattle.calendar_text.specs.inside.Laws.{MomentsAreReadBack};

/// A moment that is spelled is read as itself.
pub fn moments_are_read_back()
    ensures { MomentsAreReadBack }
{}
