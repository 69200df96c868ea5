//! New starts, where no part of a plan is gained on: dives over some aircraft beside the routes of the others, and dives over all
//! of them at other temperatures. What leaves nothing out climbs the ladder, and the cheapest plan stays.

ghost use Rattle.std.specs.Prelude.{IfOk};
ghost use Rattle.branch_marks.specs.Settled.{AreDuals};
ghost use Rattle.branch_marks.specs.inside.MarkTables.{AreMarksOf};
ghost use Rattle.plan_finder.specs.Columns.{AreColumns};
ghost use Rattle.plan_finder.specs.Finding.{IsFittingPlan};
ghost use Rattle.plan_finder.specs.Problem.{IsProblem};

use crate::columns::Columns;
use crate::ground::Ground;
use crate::judging::judge;
use crate::ladder::Ladder;
use crate::problem::Problem;
use crate::soft_dive::{Course, soft_dive};
use branch_marks::Marks;
use pool_plans::{JudgedPlan, marks_beside, mixed};
use std::alloc::Global;
use tail_book::{Memory, Route};

// A start: how many of eight aircraft dive beside the others, and how all of them dive.
#[derive(Clone, Copy)]
struct Start {
    eighths: u64,
    course: Course,
}

const STARTS: &[Start] = &[
    Start {
        eighths: 4,
        course: Course {
            slices: 4,
            is_fine: false,
            temperature: 10_000,
        },
    },
    Start {
        eighths: 6,
        course: Course {
            slices: 1,
            is_fine: false,
            temperature: 5000,
        },
    },
    Start {
        eighths: 2,
        course: Course {
            slices: 4,
            is_fine: true,
            temperature: 5000,
        },
    },
    Start {
        eighths: 4,
        course: Course {
            slices: 2,
            is_fine: false,
            temperature: 5000,
        },
    },
];

// How some aircraft dive beside the others.
const BESIDE: Course = Course {
    slices: 1,
    is_fine: false,
    temperature: 3000,
};

// Which of so many aircraft keep their route where so many of eight do not, in the turn of this number.
fn kept_in(alloc: Global, aircraft: usize, turn: usize, eighths: u64) -> Result<Vec<bool>, Memory> {
    let mut kept = Vec::with_capacity(alloc, aircraft)?;
    for k in 0..aircraft {
        let chance = mixed(mixed(turn as u64, k as u64), eighths) >> 32;
        kept.push(chance % 8 >= eighths)?;
    }
    Ok(kept)
}

// Takes other routes for the best plan, if they are a cheaper one that is legal and fits the marks, once that has climbed the ladder.
fn take_climbed(
    alloc: Global,
    problem: &Problem,
    columns: &mut Columns,
    ground: &Ground,
    ladder: &mut Ladder,
    best: &mut JudgedPlan,
    routes: Vec<Route>,
) -> Result<(), Memory>
    requires problem { IsProblem problem.now }
    requires own { AreMarksOf problem.now.book.now ground.now.marks.now }
    requires duals { AreDuals problem.now.table.now problem.now.book.now ground.now.duals.now.values }
    requires columns { AreColumns problem.now columns.old }
    requires best { IsFittingPlan problem.now.table.now problem.now.book.now ground.now.marks.now.facts best.old.cost best.old.plan }
    ensures columns { AreColumns problem.now columns.new }
    ensures best { IsFittingPlan problem.now.table.now problem.now.book.now ground.now.marks.now.facts best.new.cost best.new.plan }
{
    let Some(mut other) = judge(alloc, problem, ground.marks, routes)? else {
        return Ok(());
    };
    ladder.climb(alloc, problem, columns, ground, &mut other)?;
    if other.cost < best.cost {
        *best = other;
    }
    Ok(())
}

// Dives under marks that may hold more than those of the ground. Where a dive leaves nothing out, its plan is taken if it comes
// cheaper than the best.
fn dive(
    alloc: Global,
    problem: &Problem,
    columns: &mut Columns,
    ground: &Ground,
    ladder: &mut Ladder,
    best: &mut JudgedPlan,
    marks: &Marks,
    course: Course,
) -> Result<(), Memory>
    requires problem { IsProblem problem.now }
    requires own { AreMarksOf problem.now.book.now ground.now.marks.now }
    requires marks { AreMarksOf problem.now.book.now marks.now }
    requires duals { AreDuals problem.now.table.now problem.now.book.now ground.now.duals.now.values }
    requires columns { AreColumns problem.now columns.old }
    requires best { IsFittingPlan problem.now.table.now problem.now.book.now ground.now.marks.now.facts best.old.cost best.old.plan }
    ensures columns { AreColumns problem.now columns.new }
    ensures best { IsFittingPlan problem.now.table.now problem.now.book.now ground.now.marks.now.facts best.new.cost best.new.plan }
{
    let Ground { pool, duals, .. } = *ground;
    let plan = soft_dive(alloc, problem, marks, columns, pool, duals, course)?;
    if plan.count_left() > 0 {
        return Ok(());
    }
    take_climbed(alloc, problem, columns, ground, ladder, best, plan.routes)
}

// The marks that hold what those aircraft fly that keep their route in the turn of this number.
fn marks_in(
    alloc: Global,
    problem: &Problem,
    marks: &Marks,
    best: &JudgedPlan,
    turn: usize,
    eighths: u64,
) -> Result<Marks, Memory>
    requires { AreMarksOf problem.now.book.now marks.now }
    ensures { IfOk result (AreMarksOf problem.now.book.now) }
{
    let book = problem.book;
    let kept = kept_in(alloc, book.tails.len(), turn, eighths)?;
    marks_beside(book, marks, &best.plan.0, &kept)
}

// A dive beside the routes of some aircraft.
fn dive_beside(
    alloc: Global,
    problem: &Problem,
    columns: &mut Columns,
    ground: &Ground,
    ladder: &mut Ladder,
    best: &mut JudgedPlan,
    turn: usize,
    eighths: u64,
) -> Result<(), Memory>
    requires problem { IsProblem problem.now }
    requires own { AreMarksOf problem.now.book.now ground.now.marks.now }
    requires duals { AreDuals problem.now.table.now problem.now.book.now ground.now.duals.now.values }
    requires columns { AreColumns problem.now columns.old }
    requires best { IsFittingPlan problem.now.table.now problem.now.book.now ground.now.marks.now.facts best.old.cost best.old.plan }
    ensures columns { AreColumns problem.now columns.new }
    ensures best { IsFittingPlan problem.now.table.now problem.now.book.now ground.now.marks.now.facts best.new.cost best.new.plan }
{
    let marks = marks_in(alloc, problem, ground.marks, best, turn, eighths)?;
    dive(
        alloc, problem, columns, ground, ladder, best, &marks, BESIDE,
    )
}

// A start beside the routes of some aircraft, and one over all of them.
fn start_over(
    alloc: Global,
    problem: &Problem,
    columns: &mut Columns,
    ground: &Ground,
    ladder: &mut Ladder,
    best: &mut JudgedPlan,
    turn: usize,
    how: Start,
) -> Result<(), Memory>
    requires problem { IsProblem problem.now }
    requires own { AreMarksOf problem.now.book.now ground.now.marks.now }
    requires duals { AreDuals problem.now.table.now problem.now.book.now ground.now.duals.now.values }
    requires columns { AreColumns problem.now columns.old }
    requires best { IsFittingPlan problem.now.table.now problem.now.book.now ground.now.marks.now.facts best.old.cost best.old.plan }
    ensures columns { AreColumns problem.now columns.new }
    ensures best { IsFittingPlan problem.now.table.now problem.now.book.now ground.now.marks.now.facts best.new.cost best.new.plan }
{
    dive_beside(
        alloc,
        problem,
        columns,
        ground,
        ladder,
        best,
        turn,
        how.eighths,
    )?;
    if !ladder.is_open(columns, best) {
        return Ok(());
    }
    let (marks, course) = (ground.marks, how.course);
    dive(alloc, problem, columns, ground, ladder, best, marks, course)
}

/// Looks for a cheaper plan by one new start after the other, as long as work is left and the bound leaves room.
pub fn restart(
    alloc: Global,
    problem: &Problem,
    columns: &mut Columns,
    ground: &Ground,
    ladder: &mut Ladder,
    best: &mut JudgedPlan,
) -> Result<(), Memory>
    requires problem { IsProblem problem.now }
    requires own { AreMarksOf problem.now.book.now ground.now.marks.now }
    requires duals { AreDuals problem.now.table.now problem.now.book.now ground.now.duals.now.values }
    requires columns { AreColumns problem.now columns.old }
    requires best { IsFittingPlan problem.now.table.now problem.now.book.now ground.now.marks.now.facts best.old.cost best.old.plan }
    ensures columns { AreColumns problem.now columns.new }
    ensures best { IsFittingPlan problem.now.table.now problem.now.book.now ground.now.marks.now.facts best.new.cost best.new.plan }
{
    for turn in 0..STARTS.len() {
        if !ladder.is_open(columns, best) {
            return Ok(());
        }
        let how = STARTS[turn];
        start_over(alloc, problem, columns, ground, ladder, best, turn, how)?;
    }
    Ok(())
}
