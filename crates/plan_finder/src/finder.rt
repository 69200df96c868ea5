//! The finder: one dive after the other, until one leaves nothing out, and else repairs of the fullest plan. A plan
//! that leaves nothing out is then made cheaper: by the ladder, and where that is stuck by new starts.

ghost use Rattle.std.specs.Prelude.{All, IfOk, IfSome};
ghost use Rattle.branch_marks.specs.Pool.{IsFittingEntry};
ghost use Rattle.branch_marks.specs.Settled.{AreDuals};
ghost use Rattle.branch_marks.specs.inside.MarkTables.{AreMarksOf};
ghost use Rattle.restricted_master.specs.Pool.{IsPoolFor};
ghost use Rattle.plan_finder.specs.Columns.{AreColumns};
ghost use Rattle.plan_finder.specs.Finding.{IsFittingPlan};
ghost use Rattle.plan_finder.specs.Problem.{IsProblem};

use crate::columns::{Columns, add_judged};
use crate::copying::same_routes;
use crate::ground::Ground;
use crate::judging::judge;
use crate::ladder::Ladder;
use crate::problem::Problem;
use crate::repairing::{Price, repair};
use crate::restarting::restart;
use crate::soft_dive::{Course, MANY, soft_dive};
use branch_marks::Marks;
use pool_plans::{JudgedPlan, SoftPlan};
use restricted_master::{Pool, number_of};
use std::alloc::Global;
use tail_book::{Duals, Memory, Plan, Route};

/// What is sought: a plan that fits the marks. Duals near the best ones suggest where.
#[derive(Clone, Copy)]
pub struct Sought<'a> {
    pub marks: &'a Marks,
    pub duals: &'a Duals,
    /// How many labels and routes may be looked at.
    pub work: u64,
}

// The dives, one after the other until one leaves nothing out.
const COURSES: &[Course] = &[
    Course {
        slices: 3,
        is_fine: false,
        temperature: 5000,
    },
    Course {
        slices: 1,
        is_fine: false,
        temperature: 10_000,
    },
    Course {
        slices: 3,
        is_fine: false,
        temperature: 20_000,
    },
    Course {
        slices: 4,
        is_fine: false,
        temperature: 3000,
    },
    Course {
        slices: 1,
        is_fine: false,
        temperature: 3000,
    },
];

// The same in a large fleet.
const COURSES_OF_MANY: &[Course] = &[
    Course {
        slices: 4,
        is_fine: false,
        temperature: 10_000,
    },
    Course {
        slices: 4,
        is_fine: false,
        temperature: 20_000,
    },
    Course {
        slices: 4,
        is_fine: true,
        temperature: 20_000,
    },
    Course {
        slices: 4,
        is_fine: true,
        temperature: 10_000,
    },
];

// Dives one time after the other, until one leaves nothing out. Of the plans the one stays that leaves least out.
fn dive_by(
    alloc: Global,
    problem: &Problem,
    sought: &Sought,
    columns: &mut Columns,
    pool: &Pool,
    courses: &[Course],
    best: &mut SoftPlan,
) -> Result<(), Memory>
    requires problem { IsProblem problem.now }
    requires marks { AreMarksOf problem.now.book.now sought.now.marks.now }
    requires duals { AreDuals problem.now.table.now problem.now.book.now sought.now.duals.now.values }
    requires columns { AreColumns problem.now columns.old }
    ensures columns { AreColumns problem.now columns.new }
{
    let Sought { marks, duals, .. } = *sought;
    for i in 0..courses.len() {
        if columns.is_spent() || best.count_left() == 0 {
            return Ok(());
        }
        let course = courses[i];
        best.take_fuller(soft_dive(alloc, problem, marks, columns, pool, duals, course)?);
    }
    Ok(())
}

// The same by the dives of a fleet of the book's size.
fn dive_all(
    alloc: Global,
    problem: &Problem,
    sought: &Sought,
    columns: &mut Columns,
    pool: &Pool,
    best: &mut SoftPlan,
) -> Result<(), Memory>
    requires problem { IsProblem problem.now }
    requires marks { AreMarksOf problem.now.book.now sought.now.marks.now }
    requires duals { AreDuals problem.now.table.now problem.now.book.now sought.now.duals.now.values }
    requires columns { AreColumns problem.now columns.old }
    ensures columns { AreColumns problem.now columns.new }
{
    let book = problem.book;
    if book.tails.len() < MANY {
        dive_by(alloc, problem, sought, columns, pool, COURSES, best)
    } else {
        dive_by(alloc, problem, sought, columns, pool, COURSES_OF_MANY, best)
    }
}

// A plan by dives, with repairs of what the fullest one leaves out.
fn repaired(
    alloc: Global,
    problem: &Problem,
    sought: &Sought,
    columns: &mut Columns,
    pool: &Pool,
) -> Result<SoftPlan, Memory>
    requires problem { IsProblem problem.now }
    requires marks { AreMarksOf problem.now.book.now sought.now.marks.now }
    requires duals { AreDuals problem.now.table.now problem.now.book.now sought.now.duals.now.values }
    requires columns { AreColumns problem.now columns.old }
    ensures columns { AreColumns problem.now columns.new }
{
    let Sought { marks, duals, .. } = *sought;
    let mut plan = SoftPlan::none(alloc, problem.book)?;
    dive_all(alloc, problem, sought, columns, pool, &mut plan)?;
    let ground = Ground { marks, pool, duals };
    repair(alloc, problem, columns, &ground, &mut plan, Price::Any)?;
    Ok(plan)
}

// Makes a plan cheaper, as far as the ladder and new starts go.
fn cheapen(
    alloc: Global,
    problem: &Problem,
    columns: &mut Columns,
    ground: &Ground,
    best: &mut JudgedPlan,
) -> Result<(), Memory>
    requires problem { IsProblem problem.now }
    requires marks { AreMarksOf problem.now.book.now ground.now.marks.now }
    requires duals { AreDuals problem.now.table.now problem.now.book.now ground.now.duals.now.values }
    requires columns { AreColumns problem.now columns.old }
    requires best { IsFittingPlan problem.now.table.now problem.now.book.now ground.now.marks.now.facts best.old.cost best.old.plan }
    ensures columns { AreColumns problem.now columns.new }
    ensures best { IsFittingPlan problem.now.table.now problem.now.book.now ground.now.marks.now.facts best.new.cost best.new.plan }
{
    let Some(mut ladder) = Ladder::new(alloc, problem, columns, ground)? else {
        return Ok(());
    };
    ladder.climb(alloc, problem, columns, ground, best)?;
    restart(alloc, problem, columns, ground, &mut ladder, best)
}

// Routes as a plan, where they are a legal one that fits the marks. It is made cheaper as far as that goes.
fn cheapened(
    alloc: Global,
    problem: &Problem,
    columns: &mut Columns,
    ground: &Ground,
    routes: Vec<Route>,
) -> Result<Option<JudgedPlan>, Memory>
    requires problem { IsProblem problem.now }
    requires marks { AreMarksOf problem.now.book.now ground.now.marks.now }
    requires duals { AreDuals problem.now.table.now problem.now.book.now ground.now.duals.now.values }
    requires columns { AreColumns problem.now columns.old }
    ensures columns { AreColumns problem.now columns.new }
    ensures plan { IfOk result (λ found. IfSome found (λ plan.
        IsFittingPlan problem.now.table.now problem.now.book.now ground.now.marks.now.facts plan.cost plan.plan)) }
{
    let Some(mut found) = judge(alloc, problem, ground.marks, routes)? else {
        return Ok(None);
    };
    cheapen(alloc, problem, columns, ground, &mut found)?;
    Ok(Some(found))
}

// A plan by dives and repairs, made cheaper as far as that goes.
fn found_by(
    alloc: Global,
    problem: &Problem,
    sought: &Sought,
    columns: &mut Columns,
    pool: &Pool,
) -> Result<Option<JudgedPlan>, Memory>
    requires problem { IsProblem problem.now }
    requires marks { AreMarksOf problem.now.book.now sought.now.marks.now }
    requires duals { AreDuals problem.now.table.now problem.now.book.now sought.now.duals.now.values }
    requires columns { AreColumns problem.now columns.old }
    ensures columns { AreColumns problem.now columns.new }
    ensures plan { IfOk result (λ found. IfSome found (λ plan.
        IsFittingPlan problem.now.table.now problem.now.book.now sought.now.marks.now.facts plan.cost plan.plan)) }
{
    let Sought { marks, duals, .. } = *sought;
    let plan = repaired(alloc, problem, sought, columns, pool)?;
    if plan.count_left() > 0 {
        return Ok(None);
    }
    let ground = Ground { marks, pool, duals };
    cheapened(alloc, problem, columns, &ground, plan.routes)
}

/// Adds the routes of a plan to a pool.
pub fn add_all(
    alloc: Global,
    problem: &Problem,
    marks: &Marks,
    columns: &mut Columns,
    pool: &mut Pool,
    routes: &[Route],
) -> Result<(), Memory>
    requires problem { IsProblem problem.now }
    requires marks { AreMarksOf problem.now.book.now marks.now }
    requires columns { AreColumns problem.now columns.old }
    requires pool { IsPoolFor problem.now.table.now problem.now.book.now pool.old }
    ensures pool { IsPoolFor problem.now.table.now problem.now.book.now pool.new }
    ensures fitting { All (IsFittingEntry problem.now.book.now marks.now.facts) pool.old.entries
        → All (IsFittingEntry problem.now.book.now marks.now.facts) pool.new.entries }
{
    let search = &mut columns.search;
    for k in 0..routes.len() {
        let (number, route) = (number_of(k), &routes[k]);
        add_judged(alloc, problem, marks, pool, search, number, &route.0)?;
    }
    Ok(())
}

// Finds a plan, and adds its routes to the pool.
fn find_with(
    alloc: Global,
    problem: &Problem,
    sought: &Sought,
    columns: &mut Columns,
    pool: &mut Pool,
) -> Result<Option<JudgedPlan>, Memory>
    requires problem { IsProblem problem.now }
    requires marks { AreMarksOf problem.now.book.now sought.now.marks.now }
    requires duals { AreDuals problem.now.table.now problem.now.book.now sought.now.duals.now.values }
    requires columns { AreColumns problem.now columns.old }
    requires pool { IsPoolFor problem.now.table.now problem.now.book.now pool.old }
    ensures plan { IfOk result (λ found. IfSome found (λ plan.
        IsFittingPlan problem.now.table.now problem.now.book.now sought.now.marks.now.facts plan.cost plan.plan)) }
    ensures pool { IsPoolFor problem.now.table.now problem.now.book.now pool.new }
    ensures fitting { All (IsFittingEntry problem.now.book.now sought.now.marks.now.facts) pool.old.entries
        → All (IsFittingEntry problem.now.book.now sought.now.marks.now.facts) pool.new.entries }
{
    let Some(found) = found_by(alloc, problem, sought, columns, pool)? else {
        return Ok(None);
    };
    let (marks, plan) = (sought.marks, &found.plan);
    add_all(alloc, problem, marks, columns, pool, &plan.0)?;
    Ok(Some(found))
}

/// Looks for a legal plan that fits the marks. What it answers has the cost that it says; how good that is, and whether there was
/// another, is not promised. The pool suggests routes to begin with, and gets those of the plan. The same call answers the same.
pub fn find_by_dives(
    alloc: Global,
    problem: &Problem,
    sought: &Sought,
    pool: &mut Pool,
) -> Result<Option<JudgedPlan>, Memory>
    requires problem { IsProblem problem.now }
    requires marks { AreMarksOf problem.now.book.now sought.now.marks.now }
    requires duals { AreDuals problem.now.table.now problem.now.book.now sought.now.duals.now.values }
    requires pool { IsPoolFor problem.now.table.now problem.now.book.now pool.old }
    ensures plan { IfOk result (λ found. IfSome found (λ plan.
        IsFittingPlan problem.now.table.now problem.now.book.now sought.now.marks.now.facts plan.cost plan.plan)) }
    ensures pool { IsPoolFor problem.now.table.now problem.now.book.now pool.new }
    ensures fitting { All (IsFittingEntry problem.now.book.now sought.now.marks.now.facts) pool.old.entries
        → All (IsFittingEntry problem.now.book.now sought.now.marks.now.facts) pool.new.entries }
{
    let mut columns = Columns::new(alloc, problem, sought.work)?;
    find_with(alloc, problem, sought, &mut columns, pool)
}

// Makes a plan cheaper by the ladder alone.
fn climb(
    alloc: Global,
    problem: &Problem,
    columns: &mut Columns,
    ground: &Ground,
    best: &mut JudgedPlan,
) -> Result<(), Memory>
    requires problem { IsProblem problem.now }
    requires marks { AreMarksOf problem.now.book.now ground.now.marks.now }
    requires duals { AreDuals problem.now.table.now problem.now.book.now ground.now.duals.now.values }
    requires columns { AreColumns problem.now columns.old }
    requires best { IsFittingPlan problem.now.table.now problem.now.book.now ground.now.marks.now.facts best.old.cost best.old.plan }
    ensures { IsFittingPlan problem.now.table.now problem.now.book.now ground.now.marks.now.facts best.new.cost best.new.plan }
{
    match Ladder::new(alloc, problem, columns, ground)? {
        Some(mut ladder) => ladder.climb(alloc, problem, columns, ground, best),
        None => Ok(()),
    }
}

// The same, where the routes that a ladder begins with are those of the plan.
fn climb_near(
    alloc: Global,
    problem: &Problem,
    sought: &Sought,
    columns: &mut Columns,
    best: &mut JudgedPlan,
) -> Result<(), Memory>
    requires problem { IsProblem problem.now }
    requires marks { AreMarksOf problem.now.book.now sought.now.marks.now }
    requires duals { AreDuals problem.now.table.now problem.now.book.now sought.now.duals.now.values }
    requires columns { AreColumns problem.now columns.old }
    requires best { IsFittingPlan problem.now.table.now problem.now.book.now sought.now.marks.now.facts best.old.cost best.old.plan }
    ensures { IsFittingPlan problem.now.table.now problem.now.book.now sought.now.marks.now.facts best.new.cost best.new.plan }
{
    let Sought { marks, duals, .. } = *sought;
    columns.begin_with(alloc, problem, marks, &best.plan.0)?;
    let pool = columns.take_pool(alloc, problem)?;
    let ground = Ground {
        marks,
        pool: &pool,
        duals,
    };
    climb(alloc, problem, columns, &ground, best)
}

// The same with columns of its own.
fn exchange_in(
    alloc: Global,
    problem: &Problem,
    sought: &Sought,
    best: &mut JudgedPlan,
) -> Result<(), Memory>
    requires problem { IsProblem problem.now }
    requires marks { AreMarksOf problem.now.book.now sought.now.marks.now }
    requires duals { AreDuals problem.now.table.now problem.now.book.now sought.now.duals.now.values }
    requires best { IsFittingPlan problem.now.table.now problem.now.book.now sought.now.marks.now.facts best.old.cost best.old.plan }
    ensures { IsFittingPlan problem.now.table.now problem.now.book.now sought.now.marks.now.facts best.new.cost best.new.plan }
{
    let mut columns = Columns::new(alloc, problem, sought.work)?;
    climb_near(alloc, problem, sought, &mut columns, best)
}

/// Looks for a cheaper plan near a given one, by the ladder alone. What it answers fits the marks and has the cost that it says: the
/// given plan itself, where nothing cheaper is found, and nothing where that is not legal or does not fit.
pub fn exchange(
    alloc: Global,
    problem: &Problem,
    sought: &Sought,
    plan: &Plan,
) -> Result<Option<JudgedPlan>, Memory>
    requires problem { IsProblem problem.now }
    requires marks { AreMarksOf problem.now.book.now sought.now.marks.now }
    requires duals { AreDuals problem.now.table.now problem.now.book.now sought.now.duals.now.values }
    ensures plan { IfOk result (λ found. IfSome found (λ plan.
        IsFittingPlan problem.now.table.now problem.now.book.now sought.now.marks.now.facts plan.cost plan.plan)) }
{
    let routes = same_routes(alloc, &plan.0)?;
    let Some(mut best) = judge(alloc, problem, sought.marks, routes)? else {
        return Ok(None);
    };
    exchange_in(alloc, problem, sought, &mut best)?;
    Ok(Some(best))
}
