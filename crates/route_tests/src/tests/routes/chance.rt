//! Least routes within a cut by chance: the answer at each cut is that of all routes, and so is what is suggested.

ghost use Rattle.std.specs.Prelude.{◌<◌};
ghost use Rattle.tail_book.specs.Lookup.{aircraft};
ghost use Rattle.branch_marks.specs.Settled.{AreDuals};
ghost use Rattle.branch_marks.specs.inside.MarkTables.{AreMarksOf};
ghost use Rattle.plan_finder.specs.Problem.{IsProblem};
ghost use Rattle.route_search.specs.Search.{IsSearchOf};

use super::{Known, Sought, Want, is_found_beside};
use crate::tests::asks::{Ask, Judged, Tally, answer_by_chance, answer_to, has_aircraft};
use crate::tests::questions::make_question;
use crate::tests::weights::{Weights, weigh_all};
use branch_marks::Marks;
use plan_finder::Problem;
use route_search::{RouteSearch, Suggestions};
use std::alloc::Global;
use std::test::Fail;
use tail_book::*;

// An aircraft whose least route, which is searched for with this slack, is that of all routes.
#[derive(Clone, Copy)]
struct Beside {
    k: u32,
    slack: u32,
}

impl Ask for Beside {
    type Answer = Judged;

    fn answer(
        &self,
        alloc: Global,
        problem: &Problem,
        marks: &Marks,
        duals: &Duals,
    ) -> Result<Judged, Memory> {
        let Beside { k, slack } = *self;
        if !has_aircraft(problem.book, k) {
            return Ok(Judged::Wrong);
        }
        let weights = weigh_all(alloc, problem.book, marks, &duals.values, k)?;
        let (least, known) = (weights.least(0), Known::All(&weights));
        let want = Want { least, known };
        let sought = Sought { k, slack, want };
        match is_found_beside(alloc, problem, marks, duals, sought, 70_000) {
            Ok(true) if least.is_none() => Ok(Judged::Nothing),
            Ok(true) => Ok(Judged::Small),
            Ok(false) => Ok(Judged::Wrong),
            Err(error) => Err(error),
        }
    }
}

fn judge_least(alloc: Global, seed: u64, k: u32) -> Result<Option<Judged>, Fail> {
    let asked = make_question(alloc, seed)?;
    let slack = asked.slack;
    Ok(answer_to(alloc, &asked, &Beside { k, slack })?)
}

// With and without slack. Of 300 books some aircraft are stuck.
#[test]
fn as_all_routes_weigh(rt: HostRuntime) -> Result<(), Fail> {
    let mut tally = Tally::new();
    for seed in 0..300u64 {
        for k in 0..2 {
            tally.add(seed, k, judge_least(rt.alloc(), seed, k)?);
        }
    }
    assert!(rt; tally.wrong.is_none(), "{:?}", tally.wrong);
    assert!(rt; tally.nothing > 30, "{} stuck", tally.nothing);
    Ok(())
}

// What a search within a cut suggests to the first aircraft, all routes in one list.
fn suggest_by(
    problem: &Problem,
    marks: &Marks,
    duals: &Duals,
    cut: i64,
    search: &mut RouteSearch,
    into: &mut Suggestions,
) -> Result<(), Memory>
    requires problem { IsProblem problem.now }
    requires marks { AreMarksOf problem.now.book.now marks.now }
    requires duals { AreDuals problem.now.table.now problem.now.book.now duals.now.values }
    requires aircraft { 0 < aircraft problem.now.book.now }
    requires search { IsSearchOf problem.now.book.now search.old }
{
    let Problem { book, table, net } = *problem;
    search.least_route(book, table, net, marks, duals, 0, cut, 60_000)?;
    search.suggest(book, table, net, marks, duals, 0, cut, into)
}

fn suggest(
    alloc: Global,
    problem: &Problem,
    marks: &Marks,
    duals: &Duals,
    cut: i64,
    into: &mut Suggestions,
) -> Result<(), Memory>
    requires problem { IsProblem problem.now }
    requires marks { AreMarksOf problem.now.book.now marks.now }
    requires duals { AreDuals problem.now.table.now problem.now.book.now duals.now.values }
    requires aircraft { 0 < aircraft problem.now.book.now }
{
    let mut search = RouteSearch::new(alloc, problem.book)?;
    suggest_by(problem, marks, duals, cut, &mut search, into)
}

// Lowers what is known of each activity of a route to its weight.
fn lower(best: &mut [i64; 6], route: &[u32], weight: i64) {
    for a in route {
        if let Some(known) = best.get_mut(*a as usize) {
            *known = weight.min(*known);
        }
    }
}

// For each activity the least weight of the suggested routes that have it; nothing where one of them is none of these, or is
// past the cut.
fn best_suggested(
    book: &Book,
    into: &Suggestions,
    weights: &Weights,
    cut: i64,
) -> Option<[i64; 6]> {
    let mut best = [i64::MAX; 6];
    for i in 0..into.count() {
        let route = into.route(book, i);
        let weight = weights.of(route)?;
        if weight > cut || route.is_empty() {
            return None;
        }
        lower(&mut best, route, weight);
    }
    Some(best)
}

// For each activity the least weight of all routes that have it, if that is within the cut.
fn best_through(weights: &Weights, cut: i64) -> [i64; 6] {
    let mut best = [i64::MAX; 6];
    for a in 0..6u32 {
        if let Some(weight) = weights.least(1 << a) {
            if weight <= cut {
                best[a as usize] = weight;
            }
        }
    }
    best
}

// How suggestions compare with all routes: they are large where there is more than one.
fn judge(book: &Book, into: &Suggestions, weights: &Weights, cut: i64) -> Judged {
    if best_suggested(book, into, weights, cut) != Some(best_through(weights, cut)) {
        Judged::Wrong
    } else if into.count() > 1 {
        Judged::Large
    } else {
        Judged::Small
    }
}

// The same of those that weigh no more than 60,000 above the least route.
fn judge_within(
    alloc: Global,
    problem: &Problem,
    marks: &Marks,
    duals: &Duals,
    weights: &Weights,
    least: i64,
) -> Result<Judged, Memory>
    requires problem { IsProblem problem.now }
    requires marks { AreMarksOf problem.now.book.now marks.now }
    requires duals { AreDuals problem.now.table.now problem.now.book.now duals.now.values }
    requires aircraft { 0 < aircraft problem.now.book.now }
{
    let (cut, mut into) = (least.saturating_add(60_000), Suggestions::new(alloc));
    match suggest(alloc, problem, marks, duals, cut, &mut into) {
        Ok(()) => Ok(judge(problem.book, &into, weights, cut)),
        Err(error) => Err(error),
    }
}

// What the first aircraft is suggested.
#[derive(Clone, Copy)]
struct Suggested;

impl Ask for Suggested {
    type Answer = Judged;

    fn answer(
        &self,
        alloc: Global,
        problem: &Problem,
        marks: &Marks,
        duals: &Duals,
    ) -> Result<Judged, Memory> {
        if !has_aircraft(problem.book, 0) {
            return Ok(Judged::Wrong);
        }
        let weights = weigh_all(alloc, problem.book, marks, &duals.values, 0)?;
        match weights.least(0) {
            Some(least) => judge_within(alloc, problem, marks, duals, &weights, least),
            None => Ok(Judged::Nothing),
        }
    }
}

// With so few rests nothing is missed: the best route through each activity within the cut is there, and no other one.
#[test]
fn suggestions_are_the_best_through_each(rt: HostRuntime) -> Result<(), Fail> {
    let mut tally = Tally::new();
    for seed in 0..150u64 {
        tally.add(seed, 0, answer_by_chance(rt.alloc(), seed, &Suggested)?);
    }
    assert!(rt; tally.wrong.is_none(), "{:?}", tally.wrong);
    assert!(rt; tally.large > 30, "{} with more than one", tally.large);
    Ok(())
}
