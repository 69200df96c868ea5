//! What a fullest plan leaves out, of those that are found soon.

ghost use Rattle.std.specs.Prelude.{◌<◌, All, IfOk};
ghost use Rattle.tail_book.specs.Lookup.{activities};
ghost use Rattle.fullest_plan.specs.LeftOut.{IsLeftOut};

use crate::exchanging::fullest_fliers;
use crate::laws::left_out_are_of_book;
use crate::left_out::{all_left_out, left_out};
use std::alloc::Global;
use tail_book::{Book, Memory};

/// The activities, rising, that some choice of one legal route for each aircraft leaves out, with no activity in two of them: few,
/// as far as some rounds of exchange find it, but not the fewest.
pub fn fewest_left_out(alloc: Global, book: &Book) -> Result<Vec<u32>, Memory>
    ensures left_out { IfOk result (λ list. IsLeftOut book.now list.items) }
    ensures of_book { IfOk result (λ list. All (λ a. a < activities book.now) list.items) }
{
    left_out_are_of_book();
    let fliers = fullest_fliers(alloc, book)?;
    match left_out(alloc, book, &fliers)? {
        Some(list) => Ok(list),
        // Never so, since each route that is sought is legal.
        None => all_left_out(alloc, book),
    }
}
