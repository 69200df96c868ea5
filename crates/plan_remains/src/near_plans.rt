//! A legal plan near a published one: what is left of it, with the rest put in where few are moved for it.

ghost use Rattle.std.specs.Prelude.{IfOk, IfSome};
ghost use Rattle.tail_book.specs.Plan.{IsLegalPlan};
ghost use Rattle.branch_marks.specs.inside.MarkTables.{AreMarksOf};
ghost use Rattle.plan_finder.specs.Problem.{IsProblem};

use crate::boxed_duals::boxed;
use crate::move_worths::worths_of_moves;
use crate::remains::Remains;
use branch_marks::Marks;
use plan_finder::{Given, Problem, Sought, mend};
use restricted_master::Pool;
use std::alloc::Global;
use tail_book::{Memory, Plan};

// For each activity so many labels and routes are looked at, at most.
const WORK: u64 = 200;

// So many moves are taken for each activity that is put in, at most.
const PRICE: u64 = 9;

// What no plan costs by a table of moves.
const NO_TARGET: u64 = 1 << 50;

/// A legal plan near what is left of a published one, if one is found soon. The table is that of moves.
pub fn near_plan(
    alloc: Global,
    problem: &Problem,
    marks: &Marks,
    homes: &[Option<u32>],
    left: &Remains,
) -> Result<Option<Plan>, Memory>
    requires problem { IsProblem problem.now }
    requires marks { AreMarksOf problem.now.book.now marks.now }
    ensures { IfOk result (λ found. IfSome found (IsLegalPlan problem.now.book.now)) }
{
    let Problem { book, table, .. } = *problem;
    let worths = worths_of_moves(alloc, book, homes, &left.kept)?;
    let duals = boxed(alloc, book, table, &worths)?;
    let sought = Sought {
        marks,
        duals: &duals,
        work: (book.activities.len() as u64).saturating_mul(WORK),
    };
    let given = Given {
        routes: &left.routes,
        price: PRICE,
        target: NO_TARGET,
    };
    let mut pool = Pool::new(alloc)?;
    match mend(alloc, problem, &sought, &given, &mut pool)? {
        Some(found) => Ok(Some(found.plan)),
        None => Ok(None),
    }
}
