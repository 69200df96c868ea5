//! The judge of what was put together: only a legal plan that fits the marks is told, with its cost. All that is
//! promised of a plan comes from this look, so whatever found the plan need not be right.

ghost use Rattle.std.specs.Prelude.{◌<◌, ℕ, IfOk, IfSome, IsTrue};
ghost use Rattle.tail_book.specs.Lookup.{aircraft};
ghost use Rattle.tail_book.specs.Plan.{route_of};
ghost use Rattle.branch_marks.specs.Marks.{Fits};
ghost use Rattle.branch_marks.specs.inside.MarkTables.{AreMarksOf};
ghost use Rattle.plan_finder.specs.Finding.{IsFittingPlan};
ghost use Rattle.plan_finder.specs.Problem.{IsProblem};

use crate::problem::Problem;
use branch_marks::Marks;
use plan_audit::audit_plan;
use pool_plans::JudgedPlan;
use std::alloc::Global;
use tail_book::laws::every_book_is_sound;
use tail_book::{Memory, Plan, Route};

// Whether the route of each aircraft fits the marks.
fn all_fit(problem: &Problem, marks: &Marks, routes: &[Route]) -> bool
    requires marks { AreMarksOf problem.now.book.now marks.now }
    ensures { IsTrue result → (k : ℕ) → k < aircraft problem.now.book.now → Fits problem.now.book.now marks.now.facts k (route_of routes.now k) }
{
    let book = problem.book;
    every_book_is_sound(book);
    for k in 0..book.tails.len() as u32 {
        let Some(route) = routes.get(k as usize) else {
            return false;
        };
        if !marks.fits(book, k, &route.0) {
            return false;
        }
    }
    true
}

// What a plan costs, where it is a legal one that fits.
fn cost_of(
    alloc: Global,
    problem: &Problem,
    marks: &Marks,
    plan: &Plan,
) -> Result<Option<u64>, Memory>
    requires problem { IsProblem problem.now }
    requires marks { AreMarksOf problem.now.book.now marks.now }
    ensures { IfOk result (λ judged. IfSome judged (λ cost. IsFittingPlan problem.now.table.now problem.now.book.now marks.now.facts cost plan.now)) }
{
    if !all_fit(problem, marks, &plan.0) {
        return Ok(None);
    }
    audit_plan(alloc, problem.book, problem.table, plan)
}

/// Routes as a plan with its cost, where they are a legal one that fits.
pub fn judge(
    alloc: Global,
    problem: &Problem,
    marks: &Marks,
    routes: Vec<Route>,
) -> Result<Option<JudgedPlan>, Memory>
    requires problem { IsProblem problem.now }
    requires marks { AreMarksOf problem.now.book.now marks.now }
    ensures { IfOk result (λ found. IfSome found (λ plan. IsFittingPlan problem.now.table.now problem.now.book.now marks.now.facts plan.cost plan.plan)) }
{
    let plan = Plan(routes);
    match cost_of(alloc, problem, marks, &plan)? {
        Some(cost) => Ok(Some(JudgedPlan { plan, cost })),
        None => Ok(None),
    }
}
