//! Pricing for which memory may run out. The test here holds where any one allocation fails, and where none does;
//! `tests/each_allocation` runs it with each of them failing in turn.

ghost use Rattle.std.specs.Prelude.{◌≡◌, ◌<◌, ◌+◌, length};
ghost use Rattle.tail_book.specs.Lookup.{activities, aircraft};
ghost use Rattle.branch_marks.specs.Settled.{AreDuals};
ghost use Rattle.branch_marks.specs.inside.MarkTables.{AreMarksOf};
ghost use Rattle.plan_finder.specs.Problem.{IsProblem};
ghost use Rattle.pricing.specs.inside.Prepared.{IsPricerOf};

use super::{Want, Way, is_wanted, pricer_by, store};
use crate::tests::asks::{Ask, Case, are_right, first_wrong, has_aircraft};
use crate::tests::books::{ByHand, MUSTS};
use branch_marks::Marks;
use label_store::Store;
use plan_finder::Problem;
use pricing::Pricer;
use std::alloc::Global;
use std::process::{Abort, ExitCode, Termination};
use std::test::Fail;
use tail_book::*;

// Whether an aircraft's price is right; nothing where memory ran out.
fn is_priced(
    problem: &Problem,
    marks: &Marks,
    duals: &Duals,
    k: u32,
    pricer: &mut Pricer,
    store: &mut Store,
    want: Want,
) -> Option<bool>
    requires problem { IsProblem problem.now }
    requires marks { AreMarksOf problem.now.book.now marks.now }
    requires duals { AreDuals problem.now.table.now problem.now.book.now duals.now.values }
    requires aircraft { k < aircraft problem.now.book.now }
    requires pricer { IsPricerOf problem.now.book.now problem.now.table.now pricer.old }
    requires nodes { length store.old.buckets ≡ activities problem.now.book.now }
    requires width { store.old.width ≡ 1 + length problem.now.book.now.rules.counters }
    ensures pricer { IsPricerOf problem.now.book.now problem.now.table.now pricer.new }
    ensures nodes { length store.new.buckets ≡ activities problem.now.book.now }
    ensures width { store.new.width ≡ 1 + length problem.now.book.now.rules.counters }
{
    let Problem { book, table, net } = *problem;
    match pricer.price(book, table, net, marks, duals, k, store) {
        Ok(answer) => Some(is_wanted(&answer, want)),
        Err(_) => None,
    }
}

// An aircraft, the way that it is priced twice, by a pricer and a store that are kept whatever became of the first time, and
// what it weighs each time.
#[derive(Clone, Copy)]
struct WeighsTwice(u32, Way, Want);

fn are_priced(
    alloc: Global,
    problem: &Problem,
    marks: &Marks,
    duals: &Duals,
    asked: &WeighsTwice,
    store: &mut Store,
) -> Result<bool, Memory>
    requires problem { IsProblem problem.now }
    requires marks { AreMarksOf problem.now.book.now marks.now }
    requires duals { AreDuals problem.now.table.now problem.now.book.now duals.now.values }
    requires aircraft { asked.now.0 < aircraft problem.now.book.now }
    requires nodes { length store.old.buckets ≡ activities problem.now.book.now }
    requires width { store.old.width ≡ 1 + length problem.now.book.now.rules.counters }
{
    let WeighsTwice(k, way, want) = *asked;
    let mut pricer = pricer_by(alloc, problem.book, problem.table, way)?;
    let first = is_priced(problem, marks, duals, k, &mut pricer, store, want);
    let again = is_priced(problem, marks, duals, k, &mut pricer, store, want);
    Ok(are_right(&[first, again]))
}

impl Ask for WeighsTwice {
    type Answer = bool;

    fn answer(
        &self,
        alloc: Global,
        problem: &Problem,
        marks: &Marks,
        duals: &Duals,
    ) -> Result<bool, Memory> {
        if !has_aircraft(problem.book, self.0) {
            return Ok(false);
        }
        let mut store = store(alloc, problem.book)?;
        are_priced(alloc, problem, marks, duals, self, &mut store)
    }
}

// An aircraft that must fly four flights, of which a dear way to the third keeps the labels apart; with lines, and link by
// link.
const DEAR_ARRIVAL: &[Case<WeighsTwice>] = &[
    (
        ByHand::Twice(3, false),
        MUSTS,
        &[0; 5],
        WeighsTwice(0, Way::Lines, Want::Route(740_000, &[0, 1, 3, 4])),
    ),
    (
        ByHand::Twice(3, false),
        MUSTS,
        &[0; 5],
        WeighsTwice(0, Way::Links, Want::Route(740_000, &[0, 1, 3, 4])),
    ),
];

fn each_is_priced(rt: &impl Abort, alloc: Global) -> Result<(), Fail> {
    let wrong = first_wrong(alloc, DEAR_ARRIVAL)?;
    assert!(rt; wrong.is_none(), "case {wrong:?}");
    Ok(())
}

// Where memory runs out in what is made for pricing, and not in it, all of it is made again.
#[test]
fn prices_without_memory_can_be_asked_again(rt: HostRuntime) -> Result<(), Fail> {
    if each_is_priced(&rt, rt.alloc()).report(&rt) == ExitCode::SUCCESS {
        return Ok(());
    }
    each_is_priced(&rt, rt.alloc())
}
