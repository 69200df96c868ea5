//! Why no plan of a book is legal. A shortage that is found shows it, and nothing more is sought; else a search for the least plan says
//! whether one is legal, and where none is, a fullest plan suggests what to leave out.

ghost use Rattle.std.specs.Prelude.{IfOk};
ghost use Rattle.shortage_report.specs.Why.{IsTrueWhy};
ghost use Rattle.shortage_report.specs.inside.Told.{CanBeTold};

use branch_tree::least_plan;
use fullest_plan::fewest_left_out;
use shortage_finder::find_shortage;
use shortage_report::Why;
use shortage_report::laws::shortages_can_be_told;
use std::alloc::Global;
use tail_book::laws::every_book_is_sound;
use tail_book::{Book, Memory, Outcome};

/// Why no plan of a book is legal, or that one is.
pub fn why(alloc: Global, book: &Book) -> Result<Why, Memory>
    ensures truth { IfOk result (IsTrueWhy book.now) }
    ensures told { IfOk result (CanBeTold book.now) }
{
    every_book_is_sound(book);
    shortages_can_be_told();
    match find_shortage(alloc, book)? {
        Some(found) => Ok(Why::Short(found)),
        None => searched(alloc, book),
    }
}

// Whether a plan is legal, where no shortage was found, and what a fullest plan leaves out where none is.
// By the book's own costs: where nothing costs anything, plans are found more slowly.
fn searched(alloc: Global, book: &Book) -> Result<Why, Memory>
    ensures truth { IfOk result (IsTrueWhy book.now) }
    ensures told { IfOk result (CanBeTold book.now) }
{
    match least_plan(alloc, book)? {
        Outcome::Optimal(_, _) => Ok(Why::Feasible),
        Outcome::Infeasible => Ok(Why::Nothing(fewest_left_out(alloc, book)?)),
        Outcome::Between { .. } | Outcome::Above { .. } => unreachable!(),
    }
}
