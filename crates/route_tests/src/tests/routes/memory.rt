//! Least routes within a cut for which memory may run out. The test here holds where any one allocation fails, and where none
//! does; `tests/each_allocation` runs it with each of them failing in turn.

ghost use Rattle.std.specs.Prelude.{◌<◌};
ghost use Rattle.tail_book.specs.Lookup.{aircraft};
ghost use Rattle.branch_marks.specs.Settled.{AreDuals};
ghost use Rattle.branch_marks.specs.inside.MarkTables.{AreMarksOf};
ghost use Rattle.plan_finder.specs.Problem.{IsProblem};

use super::{Known, Sought, Want, is_found};
use crate::tests::asks::{Ask, Case, are_right, first_wrong, has_aircraft};
use crate::tests::books::{ByHand, MUSTS};
use branch_marks::Marks;
use plan_finder::Problem;
use route_search::RouteSearch;
use std::alloc::Global;
use std::process::{Abort, ExitCode, Termination};
use std::test::Fail;
use tail_book::*;

// The least weight of aircraft 0 with the activities of its route as bits. It is searched for twice, with what is kept from
// one search to the next, whatever became of the first.
#[derive(Clone, Copy)]
struct LeastTwice(i64, u32);

fn is_found_twice(
    alloc: Global,
    problem: &Problem,
    marks: &Marks,
    duals: &Duals,
    sought: Sought<'_>,
) -> Result<bool, Memory>
    requires problem { IsProblem problem.now }
    requires marks { AreMarksOf problem.now.book.now marks.now }
    requires duals { AreDuals problem.now.table.now problem.now.book.now duals.now.values }
    requires aircraft { sought.k < aircraft problem.now.book.now }
{
    let mut search = RouteSearch::new(alloc, problem.book)?;
    let first = is_found(problem, marks, duals, &mut search, sought, i64::MAX).ok();
    let again = is_found(problem, marks, duals, &mut search, sought, i64::MAX).ok();
    Ok(are_right(&[first, again]))
}

impl Ask for LeastTwice {
    type Answer = bool;

    fn answer(
        &self,
        alloc: Global,
        problem: &Problem,
        marks: &Marks,
        duals: &Duals,
    ) -> Result<bool, Memory> {
        if !has_aircraft(problem.book, 0) {
            return Ok(false);
        }
        let want = Want {
            least: Some(self.0),
            known: Known::Flown(self.1),
        };
        let sought = Sought {
            k: 0,
            slack: 0,
            want,
        };
        is_found_twice(alloc, problem, marks, duals, sought)
    }
}

// An aircraft that must fly four flights, of which a dear way to the third keeps the labels apart.
const DEAR_ARRIVAL: &[Case<LeastTwice>] = &[(
    ByHand::Twice(3, false),
    MUSTS,
    &[0; 5],
    LeastTwice(740_000, 0b11011),
)];

fn each_is_found(rt: &impl Abort, alloc: Global) -> Result<(), Fail> {
    let wrong = first_wrong(alloc, DEAR_ARRIVAL)?;
    assert!(rt; wrong.is_none(), "case {wrong:?}");
    Ok(())
}

// Where memory runs out in what is made for the searches, and not in one of them, all of it is made again.
#[test]
fn routes_without_memory_can_be_looked_for_again(rt: HostRuntime) -> Result<(), Fail> {
    if each_is_found(&rt, rt.alloc()).report(&rt) == ExitCode::SUCCESS {
        return Ok(());
    }
    each_is_found(&rt, rt.alloc())
}
