//! Plans that dives and repairs find, on books by hand. Marks leave one plan of each book or none, so that what may be found is
//! known from outside.

ghost use Rattle.branch_marks.specs.Settled.{AreDuals};
ghost use Rattle.branch_marks.specs.inside.MarkTables.{AreMarksOf};
ghost use Rattle.plan_finder.specs.Problem.{IsProblem};

mod memory;

use super::are_routes;
use super::asks::{Ask, Case, first_wrong};
use super::books::ByHand;
use branch_marks::{Fact, Marks};
use plan_finder::{Given, Problem, Sought, exchange, find_by_dives, mend};
use pool_plans::JudgedPlan;
use restricted_master::Pool;
use std::alloc::Global;
use std::test::Fail;
use tail_book::*;

// More labels and routes than any of these books has.
const AMPLE: u64 = 1_000_000;

// What is found: a plan of these routes and this cost, whatever plan of this cost, or nothing.
#[derive(Clone, Copy)]
enum Want {
    Plan(&'static [&'static [u32]], u64),
    Cost(u64),
    Nothing,
}

fn is_wanted(answer: &Option<JudgedPlan>, want: Want) -> bool {
    match (answer, want) {
        (Some(found), Want::Plan(routes, cost)) => {
            found.cost == cost && are_routes(&found.plan, routes)
        }
        (Some(found), Want::Cost(cost)) => found.cost == cost,
        (None, Want::Nothing) => true,
        _ => false,
    }
}

// What is found, and how many routes a pool that was empty then has.
fn found(
    alloc: Global,
    problem: &Problem,
    sought: &Sought,
) -> Result<(Option<JudgedPlan>, usize), Memory>
    requires problem { IsProblem problem.now }
    requires marks { AreMarksOf problem.now.book.now sought.now.marks.now }
    requires duals { AreDuals problem.now.table.now problem.now.book.now sought.now.duals.now.values }
{
    let mut pool = Pool::new(alloc)?;
    let found = find_by_dives(alloc, problem, sought, &mut pool)?;
    Ok((found, pool.count()))
}

// With this work this is found, and the pool has so many routes, if that is known.
#[derive(Clone, Copy)]
struct Finds(u64, Want, Option<usize>);

impl Ask for Finds {
    type Answer = bool;

    fn answer(
        &self,
        alloc: Global,
        problem: &Problem,
        marks: &Marks,
        duals: &Duals,
    ) -> Result<bool, Memory> {
        let Finds(work, want, count) = *self;
        let sought = Sought { marks, duals, work };
        match found(alloc, problem, &sought) {
            Ok((answer, routes)) => Ok(
                is_wanted(&answer, want) && count.unwrap_or(routes) == routes,
            ),
            Err(error) => Err(error),
        }
    }
}

// Near a plan of two aircraft with these routes this is found.
#[derive(Clone, Copy)]
struct FindsNear([&'static [u32]; 2], Want);

// A plan of these routes.
fn plan_of(alloc: Global, routes: &[&[u32]]) -> Result<Plan, Memory> {
    let mut plan = Vec::new(alloc);
    for route in routes {
        plan.push(Route(Vec::from_slice(alloc, route)?))?;
    }
    Ok(Plan(plan))
}

impl Ask for FindsNear {
    type Answer = bool;

    fn answer(
        &self,
        alloc: Global,
        problem: &Problem,
        marks: &Marks,
        duals: &Duals,
    ) -> Result<bool, Memory> {
        let sought = Sought {
            marks,
            duals,
            work: AMPLE,
        };
        let plan = plan_of(alloc, &self.0)?;
        match exchange(alloc, problem, &sought, &plan) {
            Ok(answer) => Ok(is_wanted(&answer, self.1)),
            Err(error) => Err(error),
        }
    }
}

// From the routes of two aircraft, at a price for each activity that they leave out, and below a target this is found. The pool then has
// so many routes.
#[derive(Clone, Copy)]
struct FindsFrom([&'static [u32]; 2], u64, u64, Want, usize);

// What comes of given routes, and how many routes a pool that was empty then has.
fn mended(
    alloc: Global,
    problem: &Problem,
    sought: &Sought,
    given: &Given,
) -> Result<(Option<JudgedPlan>, usize), Memory>
    requires problem { IsProblem problem.now }
    requires marks { AreMarksOf problem.now.book.now sought.now.marks.now }
    requires duals { AreDuals problem.now.table.now problem.now.book.now sought.now.duals.now.values }
{
    let mut pool = Pool::new(alloc)?;
    let found = mend(alloc, problem, sought, given, &mut pool)?;
    Ok((found, pool.count()))
}

impl Ask for FindsFrom {
    type Answer = bool;

    fn answer(
        &self,
        alloc: Global,
        problem: &Problem,
        marks: &Marks,
        duals: &Duals,
    ) -> Result<bool, Memory> {
        let sought = Sought {
            marks,
            duals,
            work: AMPLE,
        };
        let FindsFrom(routes, price, target, want, count) = *self;
        let plan = plan_of(alloc, &routes)?;
        let given = Given {
            routes: &plan.0,
            price,
            target,
        };
        match mended(alloc, problem, &sought, &given) {
            Ok((answer, left)) => Ok(is_wanted(&answer, want) && left == count),
            Err(error) => Err(error),
        }
    }
}

// Whether two plans have the same routes.
fn are_same(first: &Plan, again: &Plan) -> bool {
    if first.0.len() != again.0.len() {
        return false;
    }
    for (route, other) in first.0.iter().zip(&again.0) {
        if route.0.as_slice() != other.0.as_slice() {
            return false;
        }
    }
    true
}

// The same plan of this cost is found each time, with as many routes in the pool.
#[derive(Clone, Copy)]
struct FindsTwice(u64);

fn are_found(first: &Option<JudgedPlan>, again: &Option<JudgedPlan>, cost: u64) -> bool {
    match (first, again) {
        (Some(first), Some(again)) => {
            first.cost == cost && again.cost == cost && are_same(&first.plan, &again.plan)
        }
        _ => false,
    }
}

impl Ask for FindsTwice {
    type Answer = bool;

    fn answer(
        &self,
        alloc: Global,
        problem: &Problem,
        marks: &Marks,
        duals: &Duals,
    ) -> Result<bool, Memory> {
        let sought = Sought {
            marks,
            duals,
            work: AMPLE,
        };
        let (first, routes) = found(alloc, problem, &sought)?;
        match found(alloc, problem, &sought) {
            Ok((again, others)) => Ok(routes == others && are_found(&first, &again, self.0)),
            Err(error) => Err(error),
        }
    }
}

const EXCHANGED: Want = Want::Plan(&[&[1], &[0]], 240);

const DEAR: Want = Want::Plan(&[&[0], &[1]], 300);

// A minute costs the second aircraft twice as much. What is given to one of the two, or taken from it, leaves one plan,
// whatever the duals say. The pool gets its routes.
const LEFT_BY_MARKS: &[Case<Finds>] = &[
    (
        ByHand::AtOnce,
        &[Fact::Must(0, 1)],
        &[0, 0],
        Finds(AMPLE, EXCHANGED, Some(2)),
    ),
    (
        ByHand::AtOnce,
        &[Fact::Must(0, 1)],
        &[120_000, 180_000],
        Finds(AMPLE, EXCHANGED, Some(2)),
    ),
    (
        ByHand::AtOnce,
        &[Fact::Bar(0, 0)],
        &[0, 0],
        Finds(AMPLE, EXCHANGED, Some(2)),
    ),
    (
        ByHand::AtOnce,
        &[Fact::Bar(0, 0)],
        &[120_000, 180_000],
        Finds(AMPLE, EXCHANGED, Some(2)),
    ),
    (
        ByHand::AtOnce,
        &[Fact::Must(1, 1)],
        &[0, 0],
        Finds(AMPLE, DEAR, Some(2)),
    ),
    (
        ByHand::AtOnce,
        &[Fact::Must(1, 1)],
        &[120_000, 180_000],
        Finds(AMPLE, DEAR, Some(2)),
    ),
    (
        ByHand::AtOnce,
        &[Fact::Bar(1, 0)],
        &[0, 0],
        Finds(AMPLE, DEAR, Some(2)),
    ),
    (
        ByHand::AtOnce,
        &[Fact::Bar(1, 0)],
        &[120_000, 180_000],
        Finds(AMPLE, DEAR, Some(2)),
    ),
];

#[test]
fn the_plan_that_marks_leave(rt: HostRuntime) -> Result<(), Fail> {
    let wrong = first_wrong(rt.alloc(), LEFT_BY_MARKS)?;
    assert!(rt; wrong.is_none(), "case {wrong:?}");
    Ok(())
}

// There and back twice, by facts of all four kinds. Each way back is tied to the way out, and the first aircraft is left with
// all of it. Where the first way back is cut from the way out, nobody else is there to fly it.
const ALL_KINDS: &[Case<Finds>] = &[
    (
        ByHand::Twice(8, true),
        &[
            Fact::Tie(0, 1),
            Fact::Tie(3, 4),
            Fact::Must(0, 0),
            Fact::Bar(1, 2),
            Fact::Bar(1, 3),
        ],
        &[0; 5],
        Finds(AMPLE, Want::Plan(&[&[0, 1, 2, 3, 4], &[]], 240), None),
    ),
    (
        ByHand::Twice(8, true),
        &[Fact::Cut(0, 1), Fact::Must(0, 0)],
        &[0; 5],
        Finds(AMPLE, Want::Nothing, None),
    ),
];

#[test]
fn facts_of_all_kinds(rt: HostRuntime) -> Result<(), Fail> {
    let wrong = first_wrong(rt.alloc(), ALL_KINDS)?;
    assert!(rt; wrong.is_none(), "case {wrong:?}");
    Ok(())
}

// A turn of half an hour lets the one aircraft come back, a minute more does not: then there is no plan, and none is found.
const ALONE: &[Case<Finds>] = &[
    (
        ByHand::Alone(30),
        &[],
        &[0, 0],
        Finds(AMPLE, Want::Cost(120), None),
    ),
    (
        ByHand::Alone(31),
        &[],
        &[0, 0],
        Finds(AMPLE, Want::Nothing, None),
    ),
];

#[test]
fn no_plan_where_there_is_none(rt: HostRuntime) -> Result<(), Fail> {
    let wrong = first_wrong(rt.alloc(), ALONE)?;
    assert!(rt; wrong.is_none(), "case {wrong:?}");
    Ok(())
}

// Where no flight is there, the empty routes are the plan. Without work nothing is looked for, and the pool stays empty.
const NOTHING: &[Case<Finds>] = &[
    (
        ByHand::Empty,
        &[],
        &[],
        Finds(AMPLE, Want::Plan(&[&[], &[]], 0), None),
    ),
    (
        ByHand::Alone(30),
        &[],
        &[0, 0],
        Finds(0, Want::Nothing, Some(0)),
    ),
];

#[test]
fn nothing_to_fly_and_no_work(rt: HostRuntime) -> Result<(), Fail> {
    let wrong = first_wrong(rt.alloc(), NOTHING)?;
    assert!(rt; wrong.is_none(), "case {wrong:?}");
    Ok(())
}

// The first aircraft flies two hours for what the second takes for one: near the dear plan lies the cheap one, unless a Must holds
// its routes. Near a plan that does not fit, or in which an aircraft is in two places at once, nothing is found.
const NEAR: &[Case<FindsNear>] = &[
    (
        ByHand::AtOnce,
        &[],
        &[0, 0],
        FindsNear([&[0], &[1]], EXCHANGED),
    ),
    (
        ByHand::AtOnce,
        &[Fact::Must(0, 0)],
        &[0, 0],
        FindsNear([&[0], &[1]], DEAR),
    ),
    (
        ByHand::AtOnce,
        &[Fact::Must(0, 1)],
        &[0, 0],
        FindsNear([&[0], &[1]], Want::Nothing),
    ),
    (
        ByHand::AtOnce,
        &[],
        &[0, 0],
        FindsNear([&[0, 1], &[]], Want::Nothing),
    ),
];

#[test]
fn what_lies_near_a_plan(rt: HostRuntime) -> Result<(), Fail> {
    let wrong = first_wrong(rt.alloc(), NEAR)?;
    assert!(rt; wrong.is_none(), "case {wrong:?}");
    Ok(())
}

// The second aircraft flies two hours for 240. So they are put in beside what the first flies where they may add as much, and the plan
// undercuts a target above 300; its routes enter the pool. A route that does not fit, or in which an aircraft is in two places at once,
// counts as empty, and what it has is put in as well. Routes that leave nothing out are the plan.
const GIVEN: &[Case<FindsFrom>] = &[
    (
        ByHand::AtOnce,
        &[Fact::Must(0, 0)],
        &[0, 0],
        FindsFrom([&[0], &[]], 240, 301, DEAR, 2),
    ),
    (
        ByHand::AtOnce,
        &[Fact::Must(0, 0)],
        &[0, 0],
        FindsFrom([&[0], &[]], 239, 301, Want::Nothing, 0),
    ),
    (
        ByHand::AtOnce,
        &[Fact::Must(0, 0)],
        &[0, 0],
        FindsFrom([&[0], &[]], 240, 300, Want::Nothing, 0),
    ),
    (
        ByHand::AtOnce,
        &[Fact::Must(0, 1)],
        &[0, 0],
        FindsFrom([&[0], &[]], 240, 301, EXCHANGED, 2),
    ),
    (
        ByHand::AtOnce,
        &[],
        &[0, 0],
        FindsFrom([&[1], &[]], 120, 301, EXCHANGED, 2),
    ),
    (
        ByHand::AtOnce,
        &[Fact::Must(0, 0)],
        &[0, 0],
        FindsFrom([&[0, 1], &[]], 240, 301, DEAR, 2),
    ),
    (
        ByHand::AtOnce,
        &[],
        &[0, 0],
        FindsFrom([&[0], &[1]], 0, 301, DEAR, 2),
    ),
];

#[test]
fn what_given_routes_leave_out(rt: HostRuntime) -> Result<(), Fail> {
    let wrong = first_wrong(rt.alloc(), GIVEN)?;
    assert!(rt; wrong.is_none(), "case {wrong:?}");
    Ok(())
}

// Without facts the first aircraft flies what it can, since a minute costs it half as much: whatever a dive makes of duals of 0,
// the plan is made as cheap as that, and is the same each time.
const EACH_TIME: &[Case<FindsTwice>] = &[
    (ByHand::AtOnce, &[], &[0; 2], FindsTwice(240)),
    (ByHand::ThereAndBack, &[], &[0; 2], FindsTwice(120)),
    (ByHand::Twice(8, true), &[], &[0; 5], FindsTwice(240)),
];

#[test]
fn the_least_plan_each_time(rt: HostRuntime) -> Result<(), Fail> {
    let wrong = first_wrong(rt.alloc(), EACH_TIME)?;
    assert!(rt; wrong.is_none(), "case {wrong:?}");
    Ok(())
}
