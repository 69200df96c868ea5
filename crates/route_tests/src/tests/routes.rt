//! Least routes within a cut, on books by hand whose least weights are known from outside, at cuts beside them.

ghost use Rattle.std.specs.Prelude.{◌<◌};
ghost use Rattle.tail_book.specs.Lookup.{aircraft};
ghost use Rattle.branch_marks.specs.Settled.{AreDuals};
ghost use Rattle.branch_marks.specs.inside.MarkTables.{AreMarksOf};
ghost use Rattle.plan_finder.specs.Problem.{IsProblem};
ghost use Rattle.route_search.specs.Search.{IsSearchOf};

use super::asks::{Ask, Case, first_wrong, has_aircraft};
use super::books::{ByHand, MUSTS};
use super::weights::{Weights, bits};
use branch_marks::{Fact, Marks};
use plan_finder::Problem;
use route_search::{LeastWithin, RouteSearch};
use std::alloc::Global;
use std::test::Fail;
use tail_book::*;

mod chance;
mod memory;

// What is known of a least route: its activities as bits, or the weights of all routes.
#[derive(Clone, Copy)]
enum Known<'a> {
    Flown(u32),
    All(&'a Weights),
}

fn is_known(known: Known<'_>, route: &[u32], weight: i64) -> bool {
    match known {
        Known::Flown(flown) => bits(route) == Some(flown),
        Known::All(weights) => weights.of(route) == Some(weight),
    }
}

// What a search at a cut has to find: the least weight where the cut is not below it, with a route that is known.
#[derive(Clone, Copy)]
struct Want<'a> {
    least: Option<i64>,
    known: Known<'a>,
}

fn is_wanted(answer: &LeastWithin, cut: i64, want: Want<'_>) -> bool {
    match (answer, want.least) {
        (LeastWithin::NoneWithin, None) => true,
        (LeastWithin::NoneWithin, Some(least)) => cut < least,
        (LeastWithin::Best { .. }, None) => false,
        (LeastWithin::Best { value, route }, Some(least)) => {
            *value == least && least <= cut && is_known(want.known, &route.0, least)
        }
    }
}

// An aircraft, and what its least route is to be. Routes that are heavier than that by the slack are looked for too.
#[derive(Clone, Copy)]
struct Sought<'a> {
    k: u32,
    slack: u32,
    want: Want<'a>,
}

// Whether a search finds at a cut what it has to.
fn is_found(
    problem: &Problem,
    marks: &Marks,
    duals: &Duals,
    search: &mut RouteSearch,
    sought: Sought<'_>,
    cut: i64,
) -> Result<bool, Memory>
    requires problem { IsProblem problem.now }
    requires marks { AreMarksOf problem.now.book.now marks.now }
    requires duals { AreDuals problem.now.table.now problem.now.book.now duals.now.values }
    requires search { IsSearchOf problem.now.book.now search.old }
    requires aircraft { sought.k < aircraft problem.now.book.now }
    ensures { IsSearchOf problem.now.book.now search.new }
{
    let Problem { book, table, net } = *problem;
    let Sought { k, slack, want } = sought;
    match search.least_route(book, table, net, marks, duals, k, cut, slack) {
        Ok(answer) => Ok(is_wanted(&answer, cut, want)),
        Err(error) => Err(error),
    }
}

// Whether one search finds what it has to at each of these cuts.
fn found_in(
    alloc: Global,
    problem: &Problem,
    marks: &Marks,
    duals: &Duals,
    sought: Sought<'_>,
    cuts: &[i64],
) -> Result<bool, Memory>
    requires problem { IsProblem problem.now }
    requires marks { AreMarksOf problem.now.book.now marks.now }
    requires duals { AreDuals problem.now.table.now problem.now.book.now duals.now.values }
    requires aircraft { sought.k < aircraft problem.now.book.now }
{
    let mut search = RouteSearch::new(alloc, problem.book)?;
    for cut in cuts {
        if !is_found(problem, marks, duals, &mut search, sought, *cut)? {
            return Ok(false);
        }
    }
    Ok(true)
}

// Whether a search finds what it has to below and at the least weight, that much above it, and within any cut.
fn is_found_beside(
    alloc: Global,
    problem: &Problem,
    marks: &Marks,
    duals: &Duals,
    sought: Sought<'_>,
    above: i64,
) -> Result<bool, Memory>
    requires problem { IsProblem problem.now }
    requires marks { AreMarksOf problem.now.book.now marks.now }
    requires duals { AreDuals problem.now.table.now problem.now.book.now duals.now.values }
    requires aircraft { sought.k < aircraft problem.now.book.now }
{
    let least = sought.want.least.unwrap_or(0);
    let (below, above) = (least.saturating_sub(1), least.saturating_add(above));
    let cuts = [i64::MIN, below, least, above, i64::MAX];
    found_in(alloc, problem, marks, duals, sought, &cuts)
}

// The least weight of aircraft 0 with the activities of its route as bits, or nothing where it has no route within any cut.
#[derive(Clone, Copy)]
struct Least(Option<i64>, u32);

impl Ask for Least {
    type Answer = bool;

    fn answer(
        &self,
        alloc: Global,
        problem: &Problem,
        marks: &Marks,
        duals: &Duals,
    ) -> Result<bool, Memory> {
        if !has_aircraft(problem.book, 0) {
            return Ok(false);
        }
        let want = Want {
            least: self.0,
            known: Known::Flown(self.1),
        };
        let sought = Sought {
            k: 0,
            slack: 0,
            want,
        };
        is_found_beside(alloc, problem, marks, duals, sought, 1)
    }
}

// The empty route weighs nothing, and duals draw the aircraft to what they pay for. A fact keeps it from there, or holds it to
// more than it would fly.
const ONE_FACT: &[Case<Least>] = &[
    (
        ByHand::ThereAndBack,
        &[Fact::Bar(1, 0)],
        &[0, 0],
        Least(Some(0), 0b00),
    ),
    (
        ByHand::ThereAndBack,
        &[Fact::Must(0, 1)],
        &[0, 0],
        Least(Some(120_000), 0b11),
    ),
    (
        ByHand::ThereAndBack,
        &[Fact::Bar(1, 0)],
        &[100_000, 100_000],
        Least(Some(-80_000), 0b11),
    ),
    (
        ByHand::ThereAndBack,
        &[Fact::Cut(0, 1)],
        &[100_000, 100_000],
        Least(Some(-40_000), 0b01),
    ),
    (
        ByHand::ThereAndBack,
        &[Fact::Tie(0, 1)],
        &[100_000, 30_000],
        Least(Some(-10_000), 0b11),
    ),
    (
        ByHand::ThereAndBack,
        &[Fact::Bar(0, 0)],
        &[100_000, 200_000],
        Least(Some(0), 0b00),
    ),
];

// An aircraft that has to fly what it may not, or that has nothing to come there, has no route within any cut.
const STUCK: &[Case<Least>] = &[
    (
        ByHand::ThereAndBack,
        &[Fact::Must(0, 1), Fact::Bar(0, 0)],
        &[0, 0],
        Least(None, 0),
    ),
    (
        ByHand::ThereAndBack,
        &[Fact::Must(0, 1), Fact::Cut(0, 1)],
        &[0, 0],
        Least(None, 0),
    ),
];

// Counters aside the aircraft flies all four for 240,000, through the ground time and with two landings on its counter. With a
// limit of three it has to wait an hour and a half for the third flight, which costs 500 and clears the counter; where the
// ground time sets the counter to 0 it need not. So counters are not in the completion.
const COUNTERS: &[Case<Least>] = &[
    (
        ByHand::Twice(3, false),
        MUSTS,
        &[0, 0, 0, 0, 0],
        Least(Some(740_000), 0b11011),
    ),
    (
        ByHand::Twice(3, true),
        MUSTS,
        &[0, 0, 0, 0, 0],
        Least(Some(240_000), 0b11111),
    ),
    (
        ByHand::Twice(4, false),
        MUSTS,
        &[0, 0, 0, 0, 0],
        Least(Some(240_000), 0b11111),
    ),
];

#[test]
fn least_routes_by_hand(rt: HostRuntime) -> Result<(), Fail> {
    for &(name, cases) in &[
        ("one fact", ONE_FACT),
        ("stuck within any cut", STUCK),
        ("counters", COUNTERS),
    ] {
        let wrong = first_wrong(rt.alloc(), cases)?;
        assert!(rt; wrong.is_none(), "{name}: case {wrong:?}");
    }
    Ok(())
}
