//! Laws of best-first trees: the contract of each function is the law.

ghost use Rattle.best_first.specs.Laws.{BestTreesAreGrown, BestTreesAreTrue};

use branch_tree::laws::grown_trees_are_true;

/// A best-first tree is a grown tree.
pub fn best_trees_are_grown()
    ensures { BestTreesAreGrown }
{}

/// What a best-first tree ends with is true.
pub fn best_trees_are_true()
    ensures { BestTreesAreTrue }
{
    best_trees_are_grown();
    grown_trees_are_true();
}
