//! Parts of a plan that are planned again to undercut its cost: a window of time for all aircraft, or the whole time for some of
//! them.

ghost use Rattle.branch_marks.specs.Settled.{AreDuals};
ghost use Rattle.branch_marks.specs.inside.MarkTables.{AreMarksOf};
ghost use Rattle.plan_finder.specs.Columns.{AreColumns};
ghost use Rattle.plan_finder.specs.Problem.{IsProblem};

use crate::columns::Columns;
use crate::ground::Ground;
use crate::neighbourhood::{Neighbourhood, improve};
use crate::problem::Problem;
use branch_marks::Marks;
use pool_plans::{JudgedPlan, marks_beside, marks_outside};
use std::alloc::Global;
use tail_book::{Duals, Memory, Route};

// Plans again what the marks leave free, beginning with the routes of the plan.
fn replan(
    alloc: Global,
    problem: &Problem,
    columns: &mut Columns,
    duals: &Duals,
    marks: &Marks,
    plan: &JudgedPlan,
    kept: &[bool],
) -> Result<Option<Vec<Route>>, Memory>
    requires problem { IsProblem problem.now }
    requires marks { AreMarksOf problem.now.book.now marks.now }
    requires duals { AreDuals problem.now.table.now problem.now.book.now duals.now.values }
    requires columns { AreColumns problem.now columns.old }
    ensures columns { AreColumns problem.now columns.new }
{
    columns.begin_with(alloc, problem, marks, &plan.plan.0)?;
    columns.spend(duals.values.len() as u64);
    let near = Neighbourhood {
        marks,
        left_out: &[],
        kept,
        target: plan.cost,
    };
    improve(alloc, problem, columns, &near, duals)
}

/// Plans a window of activities again. What lies before it stays with its aircraft, and what lies behind it stays together.
pub fn replan_window(
    alloc: Global,
    problem: &Problem,
    columns: &mut Columns,
    ground: &Ground,
    plan: &JudgedPlan,
    from: u32,
    to: u32,
) -> Result<Option<Vec<Route>>, Memory>
    requires problem { IsProblem problem.now }
    requires marks { AreMarksOf problem.now.book.now ground.now.marks.now }
    requires duals { AreDuals problem.now.table.now problem.now.book.now ground.now.duals.now.values }
    requires columns { AreColumns problem.now columns.old }
    ensures columns { AreColumns problem.now columns.new }
{
    let (duals, own) = (ground.duals, ground.marks);
    let marks = marks_outside(problem.book, own, &plan.plan.0, from, to)?;
    replan(alloc, problem, columns, duals, &marks, plan, &[])
}

/// Plans again what the aircraft fly that do not keep their route.
pub fn replan_aircraft(
    alloc: Global,
    problem: &Problem,
    columns: &mut Columns,
    ground: &Ground,
    plan: &JudgedPlan,
    kept: &[bool],
) -> Result<Option<Vec<Route>>, Memory>
    requires problem { IsProblem problem.now }
    requires marks { AreMarksOf problem.now.book.now ground.now.marks.now }
    requires duals { AreDuals problem.now.table.now problem.now.book.now ground.now.duals.now.values }
    requires columns { AreColumns problem.now columns.old }
    ensures columns { AreColumns problem.now columns.new }
{
    let (duals, own) = (ground.duals, ground.marks);
    let marks = marks_beside(problem.book, own, &plan.plan.0, kept)?;
    replan(alloc, problem, columns, duals, &marks, plan, kept)
}
