//! Pricing by chance: the answer is the least weight of all routes, and the route has it.

ghost use Rattle.std.specs.Prelude.{◌<◌};
ghost use Rattle.tail_book.specs.Lookup.{aircraft};
ghost use Rattle.branch_marks.specs.Settled.{AreDuals};
ghost use Rattle.branch_marks.specs.inside.MarkTables.{AreMarksOf};
ghost use Rattle.plan_finder.specs.Problem.{IsProblem};

use super::{Way, priced};
use crate::tests::asks::{Ask, Judged, Tally, answer_by_chance, has_aircraft};
use crate::tests::weights::{Weights, weigh_all};
use branch_marks::Marks;
use plan_finder::Problem;
use pricing::Priced;
use std::alloc::Global;
use std::test::Fail;
use tail_book::*;

// What an aircraft weighs this way; nothing where it is stuck.
fn weight(
    alloc: Global,
    problem: &Problem,
    marks: &Marks,
    duals: &Duals,
    k: u32,
    way: Way,
) -> Result<Option<i64>, Memory>
    requires problem { IsProblem problem.now }
    requires marks { AreMarksOf problem.now.book.now marks.now }
    requires duals { AreDuals problem.now.table.now problem.now.book.now duals.now.values }
    requires aircraft { k < aircraft problem.now.book.now }
{
    match priced(alloc, problem, marks, duals, k, way) {
        Ok(Priced::Best { value, .. }) => Ok(Some(value)),
        Ok(Priced::Stuck) => Ok(None),
        Err(error) => Err(error),
    }
}

// Whether an aircraft has the same weight whichever way its labels go.
#[derive(Clone, Copy)]
struct IsAlike(u32);

impl Ask for IsAlike {
    type Answer = Judged;

    fn answer(
        &self,
        alloc: Global,
        problem: &Problem,
        marks: &Marks,
        duals: &Duals,
    ) -> Result<Judged, Memory> {
        let k = self.0;
        if !has_aircraft(problem.book, k) {
            return Ok(Judged::Wrong);
        }
        let by_lines = weight(alloc, problem, marks, duals, k, Way::Lines)?;
        let by_links = weight(alloc, problem, marks, duals, k, Way::Links)?;
        let chosen = weight(alloc, problem, marks, duals, k, Way::Chosen)?;
        Ok(if by_lines == by_links && chosen == by_links {
            Judged::Small
        } else {
            Judged::Wrong
        })
    }
}

#[test]
fn lines_weigh_as_single_links(rt: HostRuntime) -> Result<(), Fail> {
    let mut tally = Tally::new();
    for seed in 300..400u64 {
        for k in 0..2 {
            tally.add(seed, k, answer_by_chance(rt.alloc(), seed, &IsAlike(k))?);
        }
    }
    assert!(rt; tally.wrong.is_none(), "{:?}", tally.wrong);
    Ok(())
}

// The least weight of all routes and that of the answer's route, beside the answer's.
fn judge_best(best: Option<i64>, weight: Option<i64>, value: i64, flown: usize) -> Judged {
    if best != Some(value) || weight != Some(value) {
        Judged::Wrong
    } else if flown > 1 {
        Judged::Large
    } else {
        Judged::Small
    }
}

// An aircraft's answer beside all routes: it is large where it has more than one activity.
fn judge(answer: &Priced, weights: &Weights) -> Judged {
    match answer {
        Priced::Stuck => match weights.least(0) {
            None => Judged::Nothing,
            Some(_) => Judged::Wrong,
        },
        Priced::Best { value, route } => judge_best(
            weights.least(0),
            weights.of(&route.0),
            *value,
            route.0.len(),
        ),
    }
}

// How an aircraft's answer compares with all routes.
#[derive(Clone, Copy)]
struct Beside(u32);

impl Ask for Beside {
    type Answer = Judged;

    fn answer(
        &self,
        alloc: Global,
        problem: &Problem,
        marks: &Marks,
        duals: &Duals,
    ) -> Result<Judged, Memory> {
        let k = self.0;
        if !has_aircraft(problem.book, k) {
            return Ok(Judged::Wrong);
        }
        let weights = weigh_all(alloc, problem.book, marks, &duals.values, k)?;
        match priced(alloc, problem, marks, duals, k, Way::Lines) {
            Ok(answer) => Ok(judge(&answer, &weights)),
            Err(error) => Err(error),
        }
    }
}

// Of 300 books some aircraft are stuck, and some fly more than one activity.
#[test]
fn as_all_routes_weigh(rt: HostRuntime) -> Result<(), Fail> {
    let mut tally = Tally::new();
    for seed in 0..300u64 {
        for k in 0..2 {
            tally.add(seed, k, answer_by_chance(rt.alloc(), seed, &Beside(k))?);
        }
    }
    assert!(rt; tally.wrong.is_none(), "{:?}", tally.wrong);
    let (stuck, long) = (tally.nothing, tally.large);
    assert!(rt; stuck > 30 && long > 30, "{stuck} stuck, {long} long");
    Ok(())
}
