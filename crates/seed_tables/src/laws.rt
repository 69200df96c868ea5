//! Laws over the definitions alone: the contract of each function is the law. A call computes nothing.

ghost use Rattle.seed_tables.specs.Making.{HasBook};
ghost use Rattle.seed_tables.specs.Trial.{trial_of};
ghost use Rattle.std.specs.Prelude.{ℕ};

/// The texts of every seed are a book. What each aircraft was made to fly is a legal plan of it, which costs what was made,
/// and no legal plan costs less.
pub fn trials_are_books()
    ensures { (seed : ℕ) → HasBook seed (trial_of seed) }
{}
