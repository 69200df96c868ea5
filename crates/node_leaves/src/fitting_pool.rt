//! The pool of a node: routes that no longer fit its marks are dropped.

ghost use Rattle.std.specs.Prelude.{◌<◌, All};
ghost use Rattle.tail_book.specs.Lookup.{aircraft};
ghost use Rattle.tail_book.specs.TableSeen.{CostTableSeen};
ghost use Rattle.branch_marks.specs.Pool.{Pooled};
ghost use Rattle.branch_marks.specs.inside.MarkTables.{AreMarksOf};
ghost use Rattle.node_leaves.specs.inside.FittingPool.{IsFittingPool, IsLegalPool};

use branch_marks::Marks;
use branch_marks::laws::fits_decides;
use restricted_master::Pool;
use tail_book::Book;

/// Drops the routes of a pool that do not fit the marks.
pub fn keep_fitting(book: &Book, marks: &Marks, pool: &mut Pool)
    requires marks { AreMarksOf book.now marks.now }
    requires aircraft { All (λ (entry : Pooled). entry.aircraft < aircraft book.now) pool.old.entries }
    ensures { (table : CostTableSeen) → IsLegalPool table book.now pool.old → IsFittingPool table book.now marks.now.facts pool.new }
{
    fits_decides();
    pool.keep_fitting(book, marks);
}
