//! What a fullest plan leaves out: on books by chance without a plan, beside all choices of legal routes.

ghost use Rattle.std.specs.Prelude.{◌<◌};
ghost use Rattle.tail_book.specs.Lookup.{aircraft};

use super::asks::has_aircraft;
use super::questions::make_question;
use super::weights::{bits, weigh_all};
use branch_marks::Marks;
use fullest_plan::fewest_left_out;
use plan_enumeration::least_plan;
use std::alloc::Global;
use std::test::Fail;
use tail_book::*;

// The sets of at most six activities that one of these sets and a route of an aircraft make.
fn sets_beside(alloc: Global, book: &Book, k: u32, sets: u64) -> Result<u64, Memory> {
    if !has_aircraft(book, k) {
        return Ok(sets);
    }
    let marks = Marks::new(alloc, book)?;
    let weights = weigh_all(alloc, book, &marks, &[0, 0, 0, 0, 0, 0], k)?;
    Ok(weights.sets_beside(sets))
}

// The sets of activities that routes fly, one of each aircraft, with none in two.
fn flown_sets(alloc: Global, book: &Book) -> Result<u64, Memory> {
    let mut sets = 1u64;
    for k in 0..4u32 {
        sets = sets_beside(alloc, book, k, sets)?;
    }
    Ok(sets)
}

// Whether some choice of routes flies all activities of a book but these.
fn is_left_out(alloc: Global, book: &Book, list: &[u32]) -> Result<bool, Memory> {
    let sets = flown_sets(alloc, book)?;
    let Some(left) = bits(list) else {
        return Ok(false);
    };
    let mut flown = 0u32;
    for a in 0..6u32 {
        if (a as usize) < book.activities.len() && left >> a & 1 == 0 {
            flown |= 1 << a;
        }
    }
    Ok(flown < 64 && sets >> flown & 1 == 1)
}

// Whether a book has a plan, or what is left out of a fullest plan is left out by routes.
fn is_true_of(alloc: Global, seed: u64) -> Result<bool, Fail> {
    let question = make_question(alloc, seed)?;
    let book = &question.book;
    match least_plan(alloc, book)? {
        Outcome::Infeasible => {
            let list = fewest_left_out(alloc, book)?;
            Ok(!list.is_empty() && is_left_out(alloc, book, &list)?)
        }
        _ => Ok(true),
    }
}

#[test]
fn some_routes_leave_out_what_is_told(rt: HostRuntime) -> Result<(), Fail> {
    for seed in 0..60u64 {
        assert!(rt; is_true_of(rt.alloc(), seed)?, "{seed}");
    }
    Ok(())
}
