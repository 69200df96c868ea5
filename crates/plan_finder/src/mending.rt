//! Given routes mended: what they leave out is put in, stretch by stretch, each time for no more than a price. There is no dive, and
//! what comes of it is not made cheaper, so a plan that lies near the routes is found in little time where there is one.

ghost use Rattle.std.specs.Prelude.{◌<◌, All, IfOk, IfSome};
ghost use Rattle.branch_marks.specs.Pool.{IsFittingEntry};
ghost use Rattle.branch_marks.specs.Settled.{AreDuals};
ghost use Rattle.branch_marks.specs.inside.MarkTables.{AreMarksOf};
ghost use Rattle.restricted_master.specs.Pool.{IsPoolFor};
ghost use Rattle.plan_finder.specs.Columns.{AreColumns};
ghost use Rattle.plan_finder.specs.Finding.{IsFittingPlan};
ghost use Rattle.plan_finder.specs.Problem.{IsProblem};

use crate::columns::Columns;
use crate::finder::{Sought, add_all};
use crate::ground::Ground;
use crate::judging::judge;
use crate::problem::Problem;
use crate::repairing::{Price, repair};
use pool_plans::{JudgedPlan, SoftPlan};
use restricted_master::Pool;
use std::alloc::Global;
use tail_book::{Memory, Route};

/// Routes that are given, one for each aircraft, and what a plan near them may cost. A route that is not legal or does not fit the
/// marks counts as empty.
#[derive(Clone, Copy)]
pub struct Given<'a> {
    pub routes: &'a [Route],
    /// What each activity that the routes leave out may add, at most, in cost units.
    pub price: u64,
    /// What a plan has to undercut, in cost units.
    pub target: u64,
}

// Gives each aircraft its route in a pool.
fn fly_all(alloc: Global, pool: &Pool, plan: &mut SoftPlan) -> Result<(), Memory> {
    for i in 0..pool.count() {
        let route = Route(Vec::from_slice(alloc, pool.route(i))?);
        plan.fly(pool.aircraft(i) as usize, route);
    }
    Ok(())
}

// The plan of the routes that are legal and fit the marks.
fn plan_of(
    alloc: Global,
    problem: &Problem,
    sought: &Sought,
    columns: &mut Columns,
    routes: &[Route],
) -> Result<SoftPlan, Memory>
    requires problem { IsProblem problem.now }
    requires marks { AreMarksOf problem.now.book.now sought.now.marks.now }
    requires columns { AreColumns problem.now columns.old }
    ensures columns { AreColumns problem.now columns.new }
{
    columns.begin_with(alloc, problem, sought.marks, routes)?;
    let mut plan = SoftPlan::none(alloc, problem.book)?;
    fly_all(alloc, &columns.pool, &mut plan)?;
    Ok(plan)
}

// The same, with what is left out put in as far as that goes.
fn mended(
    alloc: Global,
    problem: &Problem,
    sought: &Sought,
    columns: &mut Columns,
    given: &Given,
    pool: &Pool,
) -> Result<SoftPlan, Memory>
    requires problem { IsProblem problem.now }
    requires marks { AreMarksOf problem.now.book.now sought.now.marks.now }
    requires duals { AreDuals problem.now.table.now problem.now.book.now sought.now.duals.now.values }
    requires columns { AreColumns problem.now columns.old }
    ensures columns { AreColumns problem.now columns.new }
{
    let Sought { marks, duals, .. } = *sought;
    let mut plan = plan_of(alloc, problem, sought, columns, given.routes)?;
    let ground = Ground { marks, pool, duals };
    let price = Price::AtMost(given.price);
    repair(alloc, problem, columns, &ground, &mut plan, price)?;
    Ok(plan)
}

// The plan that comes of it, where it is legal, fits the marks and undercuts the target.
fn near_plan(
    alloc: Global,
    problem: &Problem,
    sought: &Sought,
    columns: &mut Columns,
    given: &Given,
    pool: &Pool,
) -> Result<Option<JudgedPlan>, Memory>
    requires problem { IsProblem problem.now }
    requires marks { AreMarksOf problem.now.book.now sought.now.marks.now }
    requires duals { AreDuals problem.now.table.now problem.now.book.now sought.now.duals.now.values }
    requires columns { AreColumns problem.now columns.old }
    ensures columns { AreColumns problem.now columns.new }
    ensures plan { IfOk result (λ found. IfSome found (λ plan.
        IsFittingPlan problem.now.table.now problem.now.book.now sought.now.marks.now.facts plan.cost plan.plan)) }
    ensures below { IfOk result (λ found. IfSome found (λ plan. plan.cost < given.now.target)) }
{
    let plan = mended(alloc, problem, sought, columns, given, pool)?;
    if plan.count_left() > 0 {
        return Ok(None);
    }
    match judge(alloc, problem, sought.marks, plan.routes)? {
        Some(found) if found.cost < given.target => Ok(Some(found)),
        _ => Ok(None),
    }
}

// Mends the routes, and adds those of the plan to the pool.
fn mend_with(
    alloc: Global,
    problem: &Problem,
    sought: &Sought,
    columns: &mut Columns,
    given: &Given,
    pool: &mut Pool,
) -> Result<Option<JudgedPlan>, Memory>
    requires problem { IsProblem problem.now }
    requires marks { AreMarksOf problem.now.book.now sought.now.marks.now }
    requires duals { AreDuals problem.now.table.now problem.now.book.now sought.now.duals.now.values }
    requires columns { AreColumns problem.now columns.old }
    requires pool { IsPoolFor problem.now.table.now problem.now.book.now pool.old }
    ensures plan { IfOk result (λ found. IfSome found (λ plan.
        IsFittingPlan problem.now.table.now problem.now.book.now sought.now.marks.now.facts plan.cost plan.plan)) }
    ensures below { IfOk result (λ found. IfSome found (λ plan. plan.cost < given.now.target)) }
    ensures pool { IsPoolFor problem.now.table.now problem.now.book.now pool.new }
    ensures fitting { All (IsFittingEntry problem.now.book.now sought.now.marks.now.facts) pool.old.entries
        → All (IsFittingEntry problem.now.book.now sought.now.marks.now.facts) pool.new.entries }
{
    let Some(found) = near_plan(alloc, problem, sought, columns, given, pool)? else {
        return Ok(None);
    };
    let (marks, plan) = (sought.marks, &found.plan);
    add_all(alloc, problem, marks, columns, pool, &plan.0)?;
    Ok(Some(found))
}

/// Looks for a legal plan that fits the marks and undercuts a cost, near given routes: what these leave out is put in. What it answers
/// has the cost that it says; how near it is, and whether there was another, is not promised. The pool suggests routes, and gets those
/// of the plan. The same call answers the same.
pub fn mend(
    alloc: Global,
    problem: &Problem,
    sought: &Sought,
    given: &Given,
    pool: &mut Pool,
) -> Result<Option<JudgedPlan>, Memory>
    requires problem { IsProblem problem.now }
    requires marks { AreMarksOf problem.now.book.now sought.now.marks.now }
    requires duals { AreDuals problem.now.table.now problem.now.book.now sought.now.duals.now.values }
    requires pool { IsPoolFor problem.now.table.now problem.now.book.now pool.old }
    ensures plan { IfOk result (λ found. IfSome found (λ plan.
        IsFittingPlan problem.now.table.now problem.now.book.now sought.now.marks.now.facts plan.cost plan.plan)) }
    ensures below { IfOk result (λ found. IfSome found (λ plan. plan.cost < given.now.target)) }
    ensures pool { IsPoolFor problem.now.table.now problem.now.book.now pool.new }
    ensures fitting { All (IsFittingEntry problem.now.book.now sought.now.marks.now.facts) pool.old.entries
        → All (IsFittingEntry problem.now.book.now sought.now.marks.now.facts) pool.new.entries }
{
    let mut columns = Columns::new(alloc, problem, sought.work)?;
    mend_with(alloc, problem, sought, &mut columns, given, pool)
}
