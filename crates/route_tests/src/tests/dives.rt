//! Dives on books by hand: those that end in a plan, with and without steps, at a hole, and at an aircraft without a route.

ghost use Rattle.std.specs.Prelude.{IsTrue};
ghost use Rattle.tail_book.specs.CostTable.{IsTableFor};

use super::are_routes;
use super::asks::{Ask, Case, by_table, first_wrong};
use super::books::{ByHand, make};
use branch_marks::{Fact, Marks};
use dive_heuristic::{DeadEnd, Dive, DiveStep, dive};
use plan_finder::Problem;
use std::alloc::Global;
use std::test::Fail;
use tail_book::laws::every_book_is_sound;
use tail_book::*;

mod chance;
mod memory;

// How a dive ends: with these routes and their cost, or after these steps at a dead end.
#[derive(Clone, Copy)]
enum Ends {
    Plan(&'static [&'static [u32]], u64),
    Dead(&'static [DiveStep], DeadEnd),
}

fn is_end(answer: &Dive, ends: Ends) -> bool {
    match (answer, ends) {
        (Dive::Plan(plan, cost), Ends::Plan(routes, want)) => {
            *cost == want && are_routes(plan, routes)
        }
        (Dive::Dead { steps, end }, Ends::Dead(want, dead)) => {
            steps.as_slice() == want && *end == dead
        }
        _ => false,
    }
}

// A dive ends so.
#[derive(Clone, Copy)]
struct DiveEnds(Ends);

impl Ask for DiveEnds {
    type Answer = bool;

    fn answer(
        &self,
        alloc: Global,
        problem: &Problem,
        marks: &Marks,
        duals: &Duals,
    ) -> Result<bool, Memory> {
        let Problem { book, table, net } = *problem;
        match dive(alloc, book, table, net, marks, duals) {
            Ok(answer) => Ok(is_end(&answer, self.0)),
            Err(error) => Err(error),
        }
    }
}

const FORCED: &[DiveStep] = &[
    DiveStep::Forced(Fact::Bar(0, 1)),
    DiveStep::Forced(Fact::Must(0, 0)),
];

// A turn of half an hour lets the one aircraft come back: both flights are forced, and its least route is the plan. A minute
// more, and the way back is dead on arrival, before the only carrier is given the way out.
const FORCED_ALONE: &[Case<DiveEnds>] = &[
    (
        ByHand::Alone(30),
        &[],
        &[0, 0],
        DiveEnds(Ends::Plan(&[&[0, 1]], 120)),
    ),
    (
        ByHand::Alone(31),
        &[],
        &[0, 0],
        DiveEnds(Ends::Dead(FORCED, DeadEnd::Hole(1))),
    ),
];

const IN_ORDER: Ends = Ends::Plan(&[&[0], &[1]], 300);

const EXCHANGED: Ends = Ends::Plan(&[&[1], &[0]], 240);

// Each aircraft flies one of the two at most, and a minute costs the second twice as much. Under duals that pay nothing both
// stay on the ground, and the first is chosen for the first; under good ones it flies the first and the second is chosen
// for it. What is barred from the start stays so.
const AFTER_CHOICES: &[Case<DiveEnds>] = &[
    (ByHand::AtOnce, &[], &[0, 0], DiveEnds(IN_ORDER)),
    (
        ByHand::AtOnce,
        &[],
        &[120_000, 180_000],
        DiveEnds(EXCHANGED),
    ),
    (
        ByHand::AtOnce,
        &[Fact::Bar(0, 0)],
        &[0, 0],
        DiveEnds(EXCHANGED),
    ),
    (
        ByHand::AtOnce,
        &[Fact::Must(1, 1)],
        &[0, 0],
        DiveEnds(IN_ORDER),
    ),
];

// Where no flight is there, the empty routes are the plan.
const NOTHING: &[Case<DiveEnds>] = &[(
    ByHand::Empty,
    &[],
    &[],
    DiveEnds(Ends::Plan(&[&[], &[]], 0)),
)];

// The last two flights are given to the second aircraft, which has to come to the first of them on one of the two ways:
// floors see a way, and pricing none.
const STUCK: &[Case<DiveEnds>] = &[(
    ByHand::TwoWays,
    &[Fact::Must(1, 4), Fact::Must(1, 5)],
    &[0; 6],
    DiveEnds(Ends::Dead(&[], DeadEnd::Stuck(1))),
)];

#[test]
fn dives_by_hand(rt: HostRuntime) -> Result<(), Fail> {
    for &(name, cases) in &[
        ("forced steps alone", FORCED_ALONE),
        ("plans after choices", AFTER_CHOICES),
        ("nothing to fly", NOTHING),
        ("stuck", STUCK),
    ] {
        let wrong = first_wrong(rt.alloc(), cases)?;
        assert!(rt; wrong.is_none(), "{name}: case {wrong:?}");
    }
    Ok(())
}

// Whether the table is one of the book.
fn is_for(book: &Book, table: &CostTable) -> bool
    ensures { IsTrue result → IsTableFor book.now table.now }
{
    every_book_is_sound(book);
    let (n, m) = (book.activities.len(), book.tails.len());
    table.n == n && table.m == m && table.fly.len() == n * m
}

// Whether a dive by this table ends so where two flights are at once.
fn ends_by(alloc: Global, table: &CostTable, ends: Ends) -> Result<bool, Fail> {
    let book = make(alloc, ByHand::AtOnce)?;
    if !is_for(&book, table) {
        return Ok(false);
    }
    Ok(by_table(alloc, &book, table, &[], &[0, 0], &DiveEnds(ends))? == Some(true))
}

// The cost is that of the table that is handed in, whatever the book says.
#[test]
fn costs_by_the_table(rt: HostRuntime) -> Result<(), Fail> {
    let fly = vec![in rt.alloc(); 5u64, 7, 11, 13]?;
    let table = CostTable::new(2, 2, fly, Vec::new(rt.alloc()), 20, 0).ok_or("no table")?;
    assert!(rt; ends_by(rt.alloc(), &table, Ends::Plan(&[&[0], &[1]], 18))?);
    Ok(())
}
