//! The search beside the enumeration, over books of every kind by chance.

use super::book_by_chance;
use dice::Dice;
use std::alloc::Global;
use tail_book::*;

// Whether both tell the same least cost, or both that no plan is legal.
fn agree(found: &Outcome, listed: &Outcome) -> bool {
    match (found, listed) {
        (Outcome::Optimal(_, least), Outcome::Optimal(_, cost)) => least == cost,
        (Outcome::Infeasible, Outcome::Infeasible) => true,
        _ => false,
    }
}

// Whether the enumeration agrees with what the search found.
fn is_listed(alloc: Global, book: &Book, found: &Outcome) -> bool {
    match plan_enumeration::least_plan(alloc, book) {
        Ok(listed) => agree(found, &listed),
        Err(_) => false,
    }
}

// Whether a plan is legal, where the search and the enumeration agree, and nothing else.
fn has_plan(alloc: Global, book: &Book) -> Option<bool> {
    match branch_tree::least_plan(alloc, book) {
        Ok(found) => {
            if is_listed(alloc, book, &found) {
                Some(matches!(&found, Outcome::Optimal(_, _)))
            } else {
                None
            }
        }
        Err(_) => None,
    }
}

// The same of the next book.
fn next_has_plan(alloc: Global, dice: &mut Dice) -> Option<bool> {
    match book_by_chance(alloc, dice) {
        Some(book) => has_plan(alloc, &book),
        None => None,
    }
}

// Five hundred books, of which many have a plan and many have none.
#[test]
fn searches_agree_with_the_enumeration(rt: HostRuntime) {
    let (mut planned, mut dice) = (0u32, Dice::new(26));
    for turn in 0..500u32 {
        let found = next_has_plan(rt.alloc(), &mut dice);
        assert!(rt; found.is_some(), "book {turn}");
        if found == Some(true) {
            planned = planned.saturating_add(1);
        }
    }
    assert!(rt; 100 < planned && planned < 400, "{planned} have a plan");
}
