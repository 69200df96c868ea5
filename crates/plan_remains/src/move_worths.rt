//! What activities are worth where a move costs 1 and nothing else anything, in thousandths of that.

ghost use Rattle.std.specs.Prelude.{◌≡◌, IfOk, length};
ghost use Rattle.tail_book.specs.Lookup.{activities};

use std::alloc::Global;
use tail_book::{Book, Memory};

// What an activity is worth that stays at home or has none, and one that has to find another place.
const STAYS: i64 = 500;

const LEAVES: i64 = 1_000;

/// Whether an activity is among those that are kept at home.
pub fn is_kept(kept: &[bool], a: usize) -> bool {
    match kept.get(a) {
        Some(is_kept) => *is_kept,
        None => false,
    }
}

// What an activity is worth.
fn worth_of_move(homes: &[Option<u32>], kept: &[bool], a: usize) -> i64 {
    match homes.get(a) {
        Some(Some(_)) => { if is_kept(kept, a) { STAYS } else { LEAVES } }
        _ => STAYS,
    }
}

/// What each activity is worth.
pub fn worths_of_moves(
    alloc: Global,
    book: &Book,
    homes: &[Option<u32>],
    kept: &[bool],
) -> Result<Vec<i64>, Memory>
    ensures { IfOk result (λ worths. length worths.items ≡ activities book.now) }
{
    let mut worths = Vec::with_capacity(alloc, book.activities.len())?;
    for a in 0..book.activities.len() {
        worths.push(worth_of_move(homes, kept, a))?;
    }
    Ok(worths)
}
