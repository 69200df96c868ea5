//! Stretches of a plan that are planned again, and what is left out put in by that.
//!
//! One activity after the other is put in, within short stretches around it first, and then within longer ones. What
//! comes of it is taken only where it leaves out fewer activities, so a repair never makes a plan worse in that.
//! After a dive it may cost whatever it does. Near a plan that was given, it may cost only so much, and the routes of the plan
//! take part.

ghost use Rattle.std.specs.Prelude.{◌<◌};
ghost use Rattle.branch_marks.specs.Settled.{AreDuals};
ghost use Rattle.branch_marks.specs.inside.MarkTables.{AreMarksOf};
ghost use Rattle.plan_finder.specs.Columns.{AreColumns};
ghost use Rattle.plan_finder.specs.Problem.{IsProblem};

use crate::columns::Columns;
use crate::ground::Ground;
use crate::neighbourhood::{Neighbourhood, improve};
use crate::problem::Problem;
use branch_marks::Marks;
use pool_plans::{SoftPlan, marks_outside};
use std::alloc::Global;
use tail_book::{Memory, Route};

// A stretch reaches so many activities to both sides of one that is left out.
const WIDTHS: &[u32] = &[15, 30, 60, 120, 240];

// No plan costs as much, in cost units.
const NO_TARGET: u64 = 1 << 50;

/// What a repair may cost: whatever it does, or no more than so much for each activity that is put in, in cost units.
#[derive(Clone, Copy)]
pub enum Price {
    Any,
    AtMost(u64),
}

// Routes that fit are taken from a pool, however heavy they are.
const ANY_WEIGHT: i64 = i64::MAX;

// What the routes of a plan cost that are legal and fit the marks, in cost units.
fn cost_of(
    alloc: Global,
    problem: &Problem,
    columns: &mut Columns,
    marks: &Marks,
    plan: &SoftPlan,
) -> Result<u64, Memory>
    requires problem { IsProblem problem.now }
    requires marks { AreMarksOf problem.now.book.now marks.now }
    requires columns { AreColumns problem.now columns.old }
    ensures columns { AreColumns problem.now columns.new }
{
    columns.begin_with(alloc, problem, marks, &plan.routes)?;
    Ok(columns.cost())
}

// What is to be undercut by a plan with one activity more.
fn target_for(
    alloc: Global,
    problem: &Problem,
    columns: &mut Columns,
    marks: &Marks,
    plan: &SoftPlan,
    price: Price,
) -> Result<u64, Memory>
    requires problem { IsProblem problem.now }
    requires marks { AreMarksOf problem.now.book.now marks.now }
    requires columns { AreColumns problem.now columns.old }
    ensures columns { AreColumns problem.now columns.new }
{
    match price {
        Price::Any => Ok(NO_TARGET),
        Price::AtMost(most) => {
            let cost = cost_of(alloc, problem, columns, marks, plan)?;
            Ok(cost.saturating_add(most).saturating_add(1))
        }
    }
}

// Begins with what a pool has for marks, and with the routes of the plan where it was given.
fn begin(
    alloc: Global,
    problem: &Problem,
    columns: &mut Columns,
    ground: &Ground,
    marks: &Marks,
    plan: &SoftPlan,
    price: Price,
) -> Result<(), Memory>
    requires problem { IsProblem problem.now }
    requires marks { AreMarksOf problem.now.book.now marks.now }
    requires columns { AreColumns problem.now columns.old }
    ensures columns { AreColumns problem.now columns.new }
{
    let Ground { pool, duals, .. } = *ground;
    columns.begin(alloc, problem, marks, duals, pool, ANY_WEIGHT)?;
    match price {
        Price::Any => Ok(()),
        Price::AtMost(_) => columns.add_plan(alloc, problem, marks, &plan.routes),
    }
}

// Plans again what marks leave free.
fn replan(
    alloc: Global,
    problem: &Problem,
    columns: &mut Columns,
    ground: &Ground,
    marks: &Marks,
    plan: &SoftPlan,
    left_out: &[bool],
    price: Price,
) -> Result<Option<Vec<Route>>, Memory>
    requires problem { IsProblem problem.now }
    requires own { AreMarksOf problem.now.book.now ground.now.marks.now }
    requires marks { AreMarksOf problem.now.book.now marks.now }
    requires duals { AreDuals problem.now.table.now problem.now.book.now ground.now.duals.now.values }
    requires columns { AreColumns problem.now columns.old }
    ensures columns { AreColumns problem.now columns.new }
{
    let (own, duals) = (ground.marks, ground.duals);
    let target = target_for(alloc, problem, columns, own, plan, price)?;
    begin(alloc, problem, columns, ground, marks, plan, price)?;
    let near = Neighbourhood {
        marks,
        left_out,
        kept: &[],
        target,
    };
    improve(alloc, problem, columns, &near, duals)
}

// Plans a stretch of activities again. What lies before it stays with its aircraft, and what lies behind it stays together.
fn replan_stretch(
    alloc: Global,
    problem: &Problem,
    columns: &mut Columns,
    ground: &Ground,
    plan: &SoftPlan,
    left_out: &[bool],
    from: u32,
    to: u32,
    price: Price,
) -> Result<Option<Vec<Route>>, Memory>
    requires problem { IsProblem problem.now }
    requires marks { AreMarksOf problem.now.book.now ground.now.marks.now }
    requires duals { AreDuals problem.now.table.now problem.now.book.now ground.now.duals.now.values }
    requires columns { AreColumns problem.now columns.old }
    ensures columns { AreColumns problem.now columns.new }
{
    let (book, own) = (problem.book, ground.marks);
    let marks = marks_outside(book, own, &plan.routes, from, to)?;
    replan(
        alloc, problem, columns, ground, &marks, plan, left_out, price,
    )
}

// Routes that leave out what a plan does but for one activity, where there are some within a stretch around that.
fn with_one(
    alloc: Global,
    problem: &Problem,
    columns: &mut Columns,
    ground: &Ground,
    plan: &SoftPlan,
    a: usize,
    width: u32,
    price: Price,
) -> Result<Option<Vec<Route>>, Memory>
    requires problem { IsProblem problem.now }
    requires marks { AreMarksOf problem.now.book.now ground.now.marks.now }
    requires duals { AreDuals problem.now.table.now problem.now.book.now ground.now.duals.now.values }
    requires columns { AreColumns problem.now columns.old }
    ensures columns { AreColumns problem.now columns.new }
{
    let mut left_out = plan.left_out.clone()?;
    if let Some(left) = left_out.get_mut(a) {
        *left = false;
    }
    let middle = (a % (1 << 31)) as u32;
    let (from, to) = (middle.saturating_sub(width), middle.saturating_add(width));
    replan_stretch(
        alloc, problem, columns, ground, plan, &left_out, from, to, price,
    )
}

// Puts in an activity that is left out, if that goes within a stretch around it.
fn put_in(
    alloc: Global,
    problem: &Problem,
    columns: &mut Columns,
    ground: &Ground,
    plan: &mut SoftPlan,
    a: usize,
    width: u32,
    price: Price,
) -> Result<(), Memory>
    requires problem { IsProblem problem.now }
    requires marks { AreMarksOf problem.now.book.now ground.now.marks.now }
    requires duals { AreDuals problem.now.table.now problem.now.book.now ground.now.duals.now.values }
    requires columns { AreColumns problem.now columns.old }
    ensures columns { AreColumns problem.now columns.new }
{
    if let Some(routes) = with_one(alloc, problem, columns, ground, plan, a, width, price)? {
        plan.take_fuller(SoftPlan::of(alloc, problem.book, routes)?);
    }
    Ok(())
}

// Puts in what a plan leaves out, one activity after the other, each within a stretch of this width.
fn repair_within(
    alloc: Global,
    problem: &Problem,
    columns: &mut Columns,
    ground: &Ground,
    plan: &mut SoftPlan,
    width: u32,
    price: Price,
) -> Result<(), Memory>
    requires problem { IsProblem problem.now }
    requires marks { AreMarksOf problem.now.book.now ground.now.marks.now }
    requires duals { AreDuals problem.now.table.now problem.now.book.now ground.now.duals.now.values }
    requires columns { AreColumns problem.now columns.old }
    ensures columns { AreColumns problem.now columns.new }
{
    let book = problem.book;
    for a in 0..book.activities.len() {
        if plan.leaves_out(a) && !columns.is_spent() {
            put_in(alloc, problem, columns, ground, plan, a, width, price)?;
        }
    }
    Ok(())
}

/// Puts in what a plan leaves out, as far as that goes: within short stretches first.
pub fn repair(
    alloc: Global,
    problem: &Problem,
    columns: &mut Columns,
    ground: &Ground,
    plan: &mut SoftPlan,
    price: Price,
) -> Result<(), Memory>
    requires problem { IsProblem problem.now }
    requires marks { AreMarksOf problem.now.book.now ground.now.marks.now }
    requires duals { AreDuals problem.now.table.now problem.now.book.now ground.now.duals.now.values }
    requires columns { AreColumns problem.now columns.old }
    ensures columns { AreColumns problem.now columns.new }
{
    for i in 0..WIDTHS.len() {
        repair_within(alloc, problem, columns, ground, plan, WIDTHS[i], price)?;
    }
    Ok(())
}
