//! Laws over the definitions alone: the contract of each function is the law.

ghost use Rattle.fullest_plan.specs.inside.Laws.{LeftOutAreOfBook};

/// What is left out are activities of the book.
pub fn left_out_are_of_book()
    ensures { LeftOutAreOfBook }
{}
