//! The ladder: a plan is made cheaper by planning parts of it again, the small ones first.
//!
//! Each rung has windows of time, which all aircraft plan again, and sets of aircraft, which plan the whole time again. A part is
//! done with as soon as its bound says that nothing cheaper is there, which takes few rounds. The same part is not planned twice
//! while the routes in it stay. The ladder ends where the plan is within less than a cost unit of the bound of the duals, where
//! no part of it is gained on, or where the work is spent.

ghost use Rattle.branch_marks.specs.Settled.{AreDuals};
ghost use Rattle.branch_marks.specs.inside.MarkTables.{AreMarksOf};
ghost use Rattle.plan_finder.specs.Columns.{AreColumns};
ghost use Rattle.plan_finder.specs.Finding.{IsFittingPlan};
ghost use Rattle.plan_finder.specs.Problem.{IsProblem};

use crate::columns::Columns;
use crate::ground::Ground;
use crate::judging::judge;
use crate::neighbourhood::{Neighbourhood, room_for};
use crate::problem::Problem;
use crate::window::{replan_aircraft, replan_window};
use pool_plans::{JudgedPlan, PlanPart, TriedParts, furthest_first, kept_beside};
use restricted_master::Pool;
use std::alloc::Global;
use tail_book::{Memory, Route};

// A rung: how many activities its windows have, and its sets how many aircraft.
#[derive(Clone, Copy)]
struct Rung {
    activities: u32,
    aircraft: usize,
}

const RUNGS: &[Rung] = &[
    Rung {
        activities: 40,
        aircraft: 3,
    },
    Rung {
        activities: 60,
        aircraft: 5,
    },
    Rung {
        activities: 80,
        aircraft: 7,
    },
    Rung {
        activities: 120,
        aircraft: 9,
    },
    Rung {
        activities: 160,
        aircraft: 12,
    },
    Rung {
        activities: 240,
        aircraft: 15,
    },
];

// The ladder is climbed so often at most.
const TURNS: u32 = 20;

/// A ladder for plans under the same marks and duals: the bound of these, in thousandths of a cost unit, with lightest routes, and
/// the parts that were tried.
#[derive(Drop)]
pub struct Ladder {
    bound: i128,
    lightest: Pool,
    tried: TriedParts,
}

// Takes other routes for the best plan, if they are a cheaper one that is legal and fits the marks.
fn take_cheaper(
    alloc: Global,
    problem: &Problem,
    ground: &Ground,
    best: &mut JudgedPlan,
    routes: Option<Vec<Route>>,
) -> Result<(), Memory>
    requires problem { IsProblem problem.now }
    requires marks { AreMarksOf problem.now.book.now ground.now.marks.now }
    requires best { IsFittingPlan problem.now.table.now problem.now.book.now ground.now.marks.now.facts best.old.cost best.old.plan }
    ensures { IsFittingPlan problem.now.table.now problem.now.book.now ground.now.marks.now.facts best.new.cost best.new.plan }
{
    let Some(routes) = routes else {
        return Ok(());
    };
    if let Some(other) = judge(alloc, problem, ground.marks, routes)? {
        if other.cost < best.cost {
            *best = other;
        }
    }
    Ok(())
}

// The sum of duals and least weights, in thousandths of a cost unit. The columns are left with lightest routes. Nothing where an
// aircraft has no route.
fn bound_of(
    alloc: Global,
    problem: &Problem,
    columns: &mut Columns,
    ground: &Ground,
) -> Result<Option<i128>, Memory>
    requires problem { IsProblem problem.now }
    requires marks { AreMarksOf problem.now.book.now ground.now.marks.now }
    requires duals { AreDuals problem.now.table.now problem.now.book.now ground.now.duals.now.values }
    requires columns { AreColumns problem.now columns.old }
    ensures columns { AreColumns problem.now columns.new }
{
    let Ground { marks, pool, duals } = *ground;
    columns.begin(alloc, problem, marks, duals, pool, 0)?;
    let near = Neighbourhood {
        marks,
        left_out: &[],
        kept: &[],
        target: 0,
    };
    columns.weigh(alloc, problem, &near, duals, 0)
}

impl Ladder {
    /// A ladder on which nothing was tried yet. Nothing where an aircraft has no route.
    pub fn new(
        alloc: Global,
        problem: &Problem,
        columns: &mut Columns,
        ground: &Ground,
    ) -> Result<Option<Ladder>, Memory>
        requires problem { IsProblem problem.now }
        requires marks { AreMarksOf problem.now.book.now ground.now.marks.now }
        requires duals { AreDuals problem.now.table.now problem.now.book.now ground.now.duals.now.values }
        requires columns { AreColumns problem.now columns.old }
        ensures columns { AreColumns problem.now columns.new }
    {
        let Some(bound) = bound_of(alloc, problem, columns, ground)? else {
            return Ok(None);
        };
        Ok(Some(Ladder {
            bound,
            lightest: columns.take_pool(alloc, problem)?,
            tried: TriedParts::nothing(alloc),
        }))
    }

    /// Whether a plan is to be made cheaper: work is left, and it is not within less than a cost unit of the bound.
    pub fn is_open(&self, columns: &Columns, best: &JudgedPlan) -> bool {
        !columns.is_spent() && room_for(self.bound, best.cost) >= 0
    }

    // Plans a window of activities again, unless that was tried.
    fn try_window(
        &mut self,
        alloc: Global,
        problem: &Problem,
        columns: &mut Columns,
        ground: &Ground,
        best: &mut JudgedPlan,
        from: u32,
        to: u32,
    ) -> Result<(), Memory>
        requires problem { IsProblem problem.now }
        requires marks { AreMarksOf problem.now.book.now ground.now.marks.now }
        requires duals { AreDuals problem.now.table.now problem.now.book.now ground.now.duals.now.values }
        requires columns { AreColumns problem.now columns.old }
        requires best { IsFittingPlan problem.now.table.now problem.now.book.now ground.now.marks.now.facts best.old.cost best.old.plan }
        ensures columns { AreColumns problem.now columns.new }
        ensures best { IsFittingPlan problem.now.table.now problem.now.book.now ground.now.marks.now.facts best.new.cost best.new.plan }
    {
        let part = PlanPart {
            kept: &[],
            from,
            to,
        };
        if !self.tried.note(part, &best.plan.0)? {
            return Ok(());
        }
        let routes = replan_window(alloc, problem, columns, ground, best, from, to)?;
        take_cheaper(alloc, problem, ground, best, routes)
    }

    // Plans windows of so many activities again, from the first ones to the last. A third of a window lies between two of them.
    fn try_windows(
        &mut self,
        alloc: Global,
        problem: &Problem,
        columns: &mut Columns,
        ground: &Ground,
        best: &mut JudgedPlan,
        width: u32,
    ) -> Result<(), Memory>
        requires problem { IsProblem problem.now }
        requires marks { AreMarksOf problem.now.book.now ground.now.marks.now }
        requires duals { AreDuals problem.now.table.now problem.now.book.now ground.now.duals.now.values }
        requires columns { AreColumns problem.now columns.old }
        requires best { IsFittingPlan problem.now.table.now problem.now.book.now ground.now.marks.now.facts best.old.cost best.old.plan }
        ensures columns { AreColumns problem.now columns.new }
        ensures best { IsFittingPlan problem.now.table.now problem.now.book.now ground.now.marks.now.facts best.new.cost best.new.plan }
    {
        let book = problem.book;
        for i in 0..book.activities.len() as u32 {
            let from = i.saturating_mul(width / 3);
            if from as usize >= book.activities.len() || !self.is_open(columns, best) {
                return Ok(());
            }
            let to = from.saturating_add(width);
            self.try_window(alloc, problem, columns, ground, best, from, to)?;
        }
        Ok(())
    }

    // Plans again what the aircraft fly that do not keep their route, unless that was tried.
    fn try_set(
        &mut self,
        alloc: Global,
        problem: &Problem,
        columns: &mut Columns,
        ground: &Ground,
        best: &mut JudgedPlan,
        kept: &[bool],
    ) -> Result<(), Memory>
        requires problem { IsProblem problem.now }
        requires marks { AreMarksOf problem.now.book.now ground.now.marks.now }
        requires duals { AreDuals problem.now.table.now problem.now.book.now ground.now.duals.now.values }
        requires columns { AreColumns problem.now columns.old }
        requires best { IsFittingPlan problem.now.table.now problem.now.book.now ground.now.marks.now.facts best.old.cost best.old.plan }
        ensures columns { AreColumns problem.now columns.new }
        ensures best { IsFittingPlan problem.now.table.now problem.now.book.now ground.now.marks.now.facts best.new.cost best.new.plan }
    {
        let part = PlanPart {
            kept,
            from: 0,
            to: u32::MAX,
        };
        if !self.tried.note(part, &best.plan.0)? {
            return Ok(());
        }
        let routes = replan_aircraft(alloc, problem, columns, ground, best, kept)?;
        take_cheaper(alloc, problem, ground, best, routes)
    }

    // Plans again what those fly that stand first in an order, and so many from a place on.
    fn try_set_at(
        &mut self,
        alloc: Global,
        problem: &Problem,
        columns: &mut Columns,
        ground: &Ground,
        best: &mut JudgedPlan,
        order: &[usize],
        first: usize,
        from: usize,
        many: usize,
    ) -> Result<(), Memory>
        requires problem { IsProblem problem.now }
        requires marks { AreMarksOf problem.now.book.now ground.now.marks.now }
        requires duals { AreDuals problem.now.table.now problem.now.book.now ground.now.duals.now.values }
        requires columns { AreColumns problem.now columns.old }
        requires best { IsFittingPlan problem.now.table.now problem.now.book.now ground.now.marks.now.facts best.old.cost best.old.plan }
        ensures columns { AreColumns problem.now columns.new }
        ensures best { IsFittingPlan problem.now.table.now problem.now.book.now ground.now.marks.now.facts best.new.cost best.new.plan }
    {
        let kept = kept_beside(alloc, order, first, from, many)?;
        self.try_set(alloc, problem, columns, ground, best, &kept)
    }

    // Plans again what sets of so many aircraft fly: a third of them are those that stand first in an order, the others come one after
    // the other.
    fn try_sets_in(
        &mut self,
        alloc: Global,
        problem: &Problem,
        columns: &mut Columns,
        ground: &Ground,
        best: &mut JudgedPlan,
        order: &[usize],
        aircraft: usize,
    ) -> Result<(), Memory>
        requires problem { IsProblem problem.now }
        requires marks { AreMarksOf problem.now.book.now ground.now.marks.now }
        requires duals { AreDuals problem.now.table.now problem.now.book.now ground.now.duals.now.values }
        requires columns { AreColumns problem.now columns.old }
        requires best { IsFittingPlan problem.now.table.now problem.now.book.now ground.now.marks.now.facts best.old.cost best.old.plan }
        ensures columns { AreColumns problem.now columns.new }
        ensures best { IsFittingPlan problem.now.table.now problem.now.book.now ground.now.marks.now.facts best.new.cost best.new.plan }
    {
        let ahead = aircraft / 3;
        let many = aircraft.saturating_sub(ahead);
        for i in 0..order.len() {
            let from = ahead.saturating_add(i.saturating_mul(many / 2));
            if from >= order.len() || !self.is_open(columns, best) {
                return Ok(());
            }
            self.try_set_at(
                alloc, problem, columns, ground, best, order, ahead, from, many,
            )?;
        }
        Ok(())
    }

    // The aircraft, those first whose route in a plan stands furthest above their lightest.
    fn order_of(
        &self,
        alloc: Global,
        problem: &Problem,
        columns: &mut Columns,
        ground: &Ground,
        plan: &JudgedPlan,
    ) -> Result<Vec<usize>, Memory>
        requires problem { IsProblem problem.now }
        requires marks { AreMarksOf problem.now.book.now ground.now.marks.now }
        requires columns { AreColumns problem.now columns.old }
        ensures columns { AreColumns problem.now columns.new }
    {
        let Ground { marks, duals, .. } = *ground;
        columns.begin(alloc, problem, marks, duals, &self.lightest, 0)?;
        columns.add_plan(alloc, problem, marks, &plan.plan.0)?;
        let book = problem.book;
        let m = book.tails.len();
        furthest_first(alloc, &columns.pool, &duals.values, m)
    }

    // Plans again what sets of so many aircraft fly, those first that stand furthest above their lightest routes.
    fn try_sets(
        &mut self,
        alloc: Global,
        problem: &Problem,
        columns: &mut Columns,
        ground: &Ground,
        best: &mut JudgedPlan,
        aircraft: usize,
    ) -> Result<(), Memory>
        requires problem { IsProblem problem.now }
        requires marks { AreMarksOf problem.now.book.now ground.now.marks.now }
        requires duals { AreDuals problem.now.table.now problem.now.book.now ground.now.duals.now.values }
        requires columns { AreColumns problem.now columns.old }
        requires best { IsFittingPlan problem.now.table.now problem.now.book.now ground.now.marks.now.facts best.old.cost best.old.plan }
        ensures columns { AreColumns problem.now columns.new }
        ensures best { IsFittingPlan problem.now.table.now problem.now.book.now ground.now.marks.now.facts best.new.cost best.new.plan }
    {
        let order = self.order_of(alloc, problem, columns, ground, best)?;
        self.try_sets_in(alloc, problem, columns, ground, best, &order, aircraft)
    }

    // Climbs the ladder once.
    fn climb_once(
        &mut self,
        alloc: Global,
        problem: &Problem,
        columns: &mut Columns,
        ground: &Ground,
        best: &mut JudgedPlan,
    ) -> Result<(), Memory>
        requires problem { IsProblem problem.now }
        requires marks { AreMarksOf problem.now.book.now ground.now.marks.now }
        requires duals { AreDuals problem.now.table.now problem.now.book.now ground.now.duals.now.values }
        requires columns { AreColumns problem.now columns.old }
        requires best { IsFittingPlan problem.now.table.now problem.now.book.now ground.now.marks.now.facts best.old.cost best.old.plan }
        ensures columns { AreColumns problem.now columns.new }
        ensures best { IsFittingPlan problem.now.table.now problem.now.book.now ground.now.marks.now.facts best.new.cost best.new.plan }
    {
        for i in 0..RUNGS.len() {
            let Rung {
                activities,
                aircraft,
            } = RUNGS[i];
            self.try_windows(alloc, problem, columns, ground, best, activities)?;
            self.try_sets(alloc, problem, columns, ground, best, aircraft)?;
        }
        Ok(())
    }

    /// Makes a plan cheaper, as far as the bound of the duals and the work leave room, and parts of it are gained on.
    pub fn climb(
        &mut self,
        alloc: Global,
        problem: &Problem,
        columns: &mut Columns,
        ground: &Ground,
        best: &mut JudgedPlan,
    ) -> Result<(), Memory>
        requires problem { IsProblem problem.now }
        requires marks { AreMarksOf problem.now.book.now ground.now.marks.now }
        requires duals { AreDuals problem.now.table.now problem.now.book.now ground.now.duals.now.values }
        requires columns { AreColumns problem.now columns.old }
        requires best { IsFittingPlan problem.now.table.now problem.now.book.now ground.now.marks.now.facts best.old.cost best.old.plan }
        ensures columns { AreColumns problem.now columns.new }
        ensures best { IsFittingPlan problem.now.table.now problem.now.book.now ground.now.marks.now.facts best.new.cost best.new.plan }
    {
        for _turn in 0..TURNS {
            let cost = best.cost;
            self.climb_once(alloc, problem, columns, ground, best)?;
            if best.cost == cost || !self.is_open(columns, best) {
                return Ok(());
            }
        }
        Ok(())
    }
}
