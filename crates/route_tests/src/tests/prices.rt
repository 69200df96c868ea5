//! Least routes by pricing, on books by hand whose least weights are known from outside.

ghost use Rattle.std.specs.Prelude.{◌≡◌, ◌<◌, ◌+◌, IfOk, length};
ghost use Rattle.tail_book.specs.Lookup.{activities, aircraft};
ghost use Rattle.tail_book.specs.CostTable.{IsTableFor};
ghost use Rattle.branch_marks.specs.Settled.{AreDuals};
ghost use Rattle.branch_marks.specs.inside.MarkTables.{AreMarksOf};
ghost use Rattle.plan_finder.specs.Problem.{IsProblem};
ghost use Rattle.pricing.specs.inside.Prepared.{IsPricerOf};

use super::asks::{Ask, Case, first_wrong, has_aircraft};
use super::books::{ByHand, MUSTS};
use branch_marks::{Fact, Marks};
use label_store::Store;
use plan_finder::Problem;
use pricing::{Priced, Pricer, price};
use std::alloc::Global;
use std::test::Fail;
use tail_book::laws::every_book_is_sound;
use tail_book::*;

mod chance;
mod fees;
mod memory;

// A store for the book.
fn store(alloc: Global, book: &Book) -> Result<Store, Memory>
    ensures nodes { IfOk result (λ store. length store.buckets ≡ activities book.now) }
    ensures width { IfOk result (λ store. store.width ≡ 1 + length book.now.rules.counters) }
{
    every_book_is_sound(book);
    let width = 1 + book.rules.counters.len();
    Store::new(alloc, book.activities.len(), width)
}

// Where labels wait in lines: where these pay, wherever flights end, or nowhere.
#[derive(Clone, Copy)]
enum Way {
    Chosen,
    Lines,
    Links,
}

// A pricer that goes this way.
fn pricer_by(alloc: Global, book: &Book, table: &CostTable, way: Way) -> Result<Pricer, Memory>
    requires { IsTableFor book.now table.now }
    ensures { IfOk result (IsPricerOf book.now table.now) }
{
    match way {
        Way::Chosen => Pricer::new(alloc, book, table),
        Way::Lines => Pricer::with_all_lines(alloc, book, table),
        Way::Links => Pricer::without_lines(alloc, book, table),
    }
}

// Prices an aircraft by a pricer that goes this way.
fn by_pricer(
    alloc: Global,
    problem: &Problem,
    marks: &Marks,
    duals: &Duals,
    k: u32,
    way: Way,
    store: &mut Store,
) -> Result<Priced, Memory>
    requires problem { IsProblem problem.now }
    requires marks { AreMarksOf problem.now.book.now marks.now }
    requires duals { AreDuals problem.now.table.now problem.now.book.now duals.now.values }
    requires aircraft { k < aircraft problem.now.book.now }
    requires nodes { length store.old.buckets ≡ activities problem.now.book.now }
    requires width { store.old.width ≡ 1 + length problem.now.book.now.rules.counters }
{
    let Problem { book, table, net } = *problem;
    let mut pricer = pricer_by(alloc, book, table, way)?;
    pricer.price(book, table, net, marks, duals, k, store)
}

// Prices an aircraft this way.
fn priced(
    alloc: Global,
    problem: &Problem,
    marks: &Marks,
    duals: &Duals,
    k: u32,
    way: Way,
) -> Result<Priced, Memory>
    requires problem { IsProblem problem.now }
    requires marks { AreMarksOf problem.now.book.now marks.now }
    requires duals { AreDuals problem.now.table.now problem.now.book.now duals.now.values }
    requires aircraft { k < aircraft problem.now.book.now }
{
    let Problem { book, table, net } = *problem;
    let mut store = store(alloc, book)?;
    match way {
        Way::Chosen => price(alloc, book, table, net, marks, duals, k, &mut store),
        Way::Lines | Way::Links => by_pricer(alloc, problem, marks, duals, k, way, &mut store),
    }
}

// What an aircraft weighs at least: this by this route, this by whatever route, or nothing as it is stuck.
#[derive(Clone, Copy)]
enum Want {
    Route(i64, &'static [u32]),
    Weight(i64),
    Stuck,
}

fn is_wanted(answer: &Priced, want: Want) -> bool {
    match (answer, want) {
        (Priced::Best { value, route }, Want::Route(weight, flown)) => {
            *value == weight && route.0.as_slice() == flown
        }
        (Priced::Best { value, .. }, Want::Weight(weight)) => *value == weight,
        (Priced::Stuck, Want::Stuck) => true,
        _ => false,
    }
}

// An aircraft, the way that it is priced, and what it weighs.
#[derive(Clone, Copy)]
struct Weighs(u32, Way, Want);

impl Ask for Weighs {
    type Answer = bool;

    fn answer(
        &self,
        alloc: Global,
        problem: &Problem,
        marks: &Marks,
        duals: &Duals,
    ) -> Result<bool, Memory> {
        let Weighs(k, way, want) = *self;
        if !has_aircraft(problem.book, k) {
            return Ok(false);
        }
        match priced(alloc, problem, marks, duals, k, way) {
            Ok(answer) => Ok(is_wanted(&answer, want)),
            Err(error) => Err(error),
        }
    }
}

// The empty route weighs nothing. Duals draw the aircraft to what they pay for, and marks keep it from there. A bar on the
// other aircraft changes nothing for this one.
const ONE_FACT: &[Case<Weighs>] = &[
    (
        ByHand::ThereAndBack,
        &[Fact::Bar(1, 0), Fact::Bar(1, 0)],
        &[0, 0],
        Weighs(0, Way::Lines, Want::Route(0, &[])),
    ),
    (
        ByHand::ThereAndBack,
        &[Fact::Bar(1, 0), Fact::Must(0, 1)],
        &[0, 0],
        Weighs(0, Way::Lines, Want::Route(120_000, &[0, 1])),
    ),
    (
        ByHand::ThereAndBack,
        &[Fact::Bar(1, 0), Fact::Bar(1, 0)],
        &[100_000, 100_000],
        Weighs(0, Way::Lines, Want::Route(-80_000, &[0, 1])),
    ),
    (
        ByHand::ThereAndBack,
        &[Fact::Bar(1, 0), Fact::Cut(0, 1)],
        &[100_000, 100_000],
        Weighs(0, Way::Lines, Want::Route(-40_000, &[0])),
    ),
    (
        ByHand::ThereAndBack,
        &[Fact::Bar(1, 0), Fact::Bar(1, 0)],
        &[100_000, 30_000],
        Weighs(0, Way::Lines, Want::Route(-40_000, &[0])),
    ),
    (
        ByHand::ThereAndBack,
        &[Fact::Bar(1, 0), Fact::Tie(0, 1)],
        &[100_000, 30_000],
        Weighs(0, Way::Lines, Want::Route(-10_000, &[0, 1])),
    ),
    (
        ByHand::ThereAndBack,
        &[Fact::Bar(1, 0), Fact::Bar(0, 0)],
        &[100_000, 200_000],
        Weighs(0, Way::Lines, Want::Route(0, &[])),
    ),
];

// Two facts hold the aircraft to more than it would fly, or to what it cannot.
const TWO_FACTS: &[Case<Weighs>] = &[
    (
        ByHand::ThereAndBack,
        &[Fact::Must(0, 1), Fact::Bar(0, 0)],
        &[0, 0],
        Weighs(0, Way::Lines, Want::Stuck),
    ),
    (
        ByHand::ThereAndBack,
        &[Fact::Must(0, 1), Fact::Cut(0, 1)],
        &[0, 0],
        Weighs(0, Way::Lines, Want::Stuck),
    ),
    (
        ByHand::ThereAndBack,
        &[Fact::Must(0, 0), Fact::Tie(0, 1)],
        &[0, 0],
        Weighs(0, Way::Lines, Want::Route(120_000, &[0, 1])),
    ),
];

// Each aircraft flies one of the two flights at most. A minute costs the first 1 and the second 2.
const TWO_TYPES: &[Case<Weighs>] = &[
    (
        ByHand::AtOnce,
        &[],
        &[120_000, 180_000],
        Weighs(0, Way::Lines, Want::Weight(-60_000)),
    ),
    (
        ByHand::AtOnce,
        &[],
        &[120_000, 180_000],
        Weighs(1, Way::Lines, Want::Weight(0)),
    ),
    (
        ByHand::AtOnce,
        &[Fact::Must(1, 1)],
        &[120_000, 180_000],
        Weighs(1, Way::Lines, Want::Weight(60_000)),
    ),
    (
        ByHand::AtOnce,
        &[Fact::Must(0, 0), Fact::Must(0, 1)],
        &[120_000, 180_000],
        Weighs(0, Way::Lines, Want::Stuck),
    ),
];

// Through the ground time the aircraft comes to the fourth activity at no cost, but with two landings, and then passes
// its limit. Straight from the second flight it waits an hour and a half, which costs 500 and clears the counter.
const DEAR_ARRIVAL: &[Case<Weighs>] = &[
    (
        ByHand::Twice(3, false),
        MUSTS,
        &[0, 0, 0, 0, 0],
        Weighs(0, Way::Lines, Want::Route(740_000, &[0, 1, 3, 4])),
    ),
    (
        ByHand::Twice(4, false),
        MUSTS,
        &[0, 0, 0, 0, 0],
        Weighs(0, Way::Lines, Want::Route(240_000, &[0, 1, 2, 3, 4])),
    ),
];

// Lines pay at airport 1 and not at airport 0, so a pricer that chooses goes both ways here. Each flight costs 60 and saves
// 100; after one landing at most the aircraft stays away, and after two it waits at airport 0 until they are cleared.
const ONE_AIRPORT_OF_TWO: &[Case<Weighs>] = &[
    (
        ByHand::WithoutBands(1),
        &[],
        &[100_000; 4],
        Weighs(0, Way::Chosen, Want::Weight(-40_000)),
    ),
    (
        ByHand::WithoutBands(2),
        &[],
        &[100_000; 4],
        Weighs(0, Way::Chosen, Want::Weight(-160_000)),
    ),
    (
        ByHand::WithoutBands(4),
        &[],
        &[100_000; 4],
        Weighs(0, Way::Chosen, Want::Weight(-160_000)),
    ),
    (
        ByHand::WithoutBands(1),
        &[],
        &[100_000; 4],
        Weighs(0, Way::Lines, Want::Weight(-40_000)),
    ),
    (
        ByHand::WithoutBands(2),
        &[],
        &[100_000; 4],
        Weighs(0, Way::Lines, Want::Weight(-160_000)),
    ),
    (
        ByHand::WithoutBands(4),
        &[],
        &[100_000; 4],
        Weighs(0, Way::Lines, Want::Weight(-160_000)),
    ),
    (
        ByHand::WithoutBands(1),
        &[],
        &[100_000; 4],
        Weighs(0, Way::Links, Want::Weight(-40_000)),
    ),
    (
        ByHand::WithoutBands(2),
        &[],
        &[100_000; 4],
        Weighs(0, Way::Links, Want::Weight(-160_000)),
    ),
    (
        ByHand::WithoutBands(4),
        &[],
        &[100_000; 4],
        Weighs(0, Way::Links, Want::Weight(-160_000)),
    ),
];

#[test]
fn weights_by_hand(rt: HostRuntime) -> Result<(), Fail> {
    for &(name, cases) in &[
        ("one fact", ONE_FACT),
        ("two facts", TWO_FACTS),
        ("two types", TWO_TYPES),
        ("a dear arrival", DEAR_ARRIVAL),
        ("lines at one airport of two", ONE_AIRPORT_OF_TWO),
    ] {
        let wrong = first_wrong(rt.alloc(), cases)?;
        assert!(rt; wrong.is_none(), "{name}: case {wrong:?}");
    }
    Ok(())
}
