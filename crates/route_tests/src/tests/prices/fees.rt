//! Pricing with fees: on a book by hand, and by chance beside all routes of an aircraft, with no quota, one and several.

ghost use Rattle.std.specs.Prelude.{◌<◌, All, IsTrue};
ghost use Rattle.tail_book.specs.Lookup.{aircraft};
ghost use Rattle.branch_marks.specs.inside.MarkTables.{AreMarksOf};
ghost use Rattle.plan_finder.specs.Problem.{IsProblem};
ghost use Rattle.quota_rows.specs.Fees.{IsFee, AreFees};

use super::{Want, is_wanted, store};
use crate::tests::asks::{Ask, Case, Judged, Tally, answer_by_chance, first_wrong, has_aircraft};
use crate::tests::books::ByHand;
use crate::tests::weights::{Weights, weigh_all};
use branch_marks::{Fact, Marks};
use dice::Dice;
use fee_pricing::price_fees;
use plan_finder::Problem;
use pricing::Priced;
use quota_rows::{Fees, QUOTA_LIMIT, Quota};
use small_books::are_duals;
use std::alloc::Global;
use std::test::Fail;
use tail_book::*;

fn is_fee(table: &CostTable, fee: i64) -> bool
    ensures { IsTrue result → IsFee table.now fee }
{
    0 <= fee && fee <= table.box_end()
}

fn are_in_box(table: &CostTable, fees: &[i64]) -> bool
    ensures { IsTrue result → All (IsFee table.now) fees.now }
{
    for q in 0..fees.len() {
        if !is_fee(table, fees[q]) {
            return false;
        }
    }
    true
}

// Whether these are a fee for each quota, each in the table's box.
fn are_fees(table: &CostTable, quotas: &[Quota], fees: &Fees) -> bool
    ensures { IsTrue result → AreFees table.now quotas.now fees.now.values }
{
    fees.values.len() == quotas.len() && are_in_box(table, &fees.values)
}

// Prices an aircraft with fees; nothing where they or the duals are not in the box.
fn priced(
    alloc: Global,
    problem: &Problem,
    marks: &Marks,
    duals: &Duals,
    quotas: &[Quota],
    fees: &Fees,
    k: u32,
) -> Result<Option<Priced>, Memory>
    requires problem { IsProblem problem.now }
    requires marks { AreMarksOf problem.now.book.now marks.now }
    requires aircraft { k < aircraft problem.now.book.now }
{
    let Problem { book, net, .. } = *problem;
    let table = CostTable::of(alloc, book)?;
    if quotas.len() > QUOTA_LIMIT
        || !are_duals(book, &table, duals)
        || !are_fees(&table, quotas, fees)
    {
        return Ok(None);
    }
    let mut store = store(alloc, book)?;
    match price_fees(
        alloc, book, &table, net, marks, duals, fees, quotas, k, &mut store,
    ) {
        Ok(answer) => Ok(Some(answer)),
        Err(error) => Err(error),
    }
}

// The one quota's airport, day and least minutes, the fee for it, and what the first aircraft weighs then.
#[derive(Clone, Copy)]
struct WeighsWith(u32, i64, i64, i64, Want);

impl Ask for WeighsWith {
    type Answer = bool;

    fn answer(
        &self,
        alloc: Global,
        problem: &Problem,
        marks: &Marks,
        duals: &Duals,
    ) -> Result<bool, Memory> {
        let WeighsWith(airport, day, below, fee, want) = *self;
        if !has_aircraft(problem.book, 0) {
            return Ok(false);
        }
        let quota = Quota {
            airport,
            day,
            below,
            most: 0,
        };
        let fees = Fees {
            values: vec![in alloc; fee; 1]?,
        };
        match priced(alloc, problem, marks, duals, &[quota], &fees, 0) {
            Ok(Some(answer)) => Ok(is_wanted(&answer, want)),
            Ok(None) => Ok(false),
            Err(error) => Err(error),
        }
    }
}

// To airport 1 on the first day and back after half an hour: both flights together weigh -80,000 and the first alone -40,000. A
// connection of thirty minutes is below 31. The connection from the carry-in pays nothing.
const ONE_QUOTA: &[Case<WeighsWith>] = &[
    (
        ByHand::ThereAndBack,
        &[Fact::Bar(1, 0)],
        &[100_000, 100_000],
        WeighsWith(1, 0, 31, 39_999, Want::Route(-40_001, &[0, 1])),
    ),
    (
        ByHand::ThereAndBack,
        &[Fact::Bar(1, 0)],
        &[100_000, 100_000],
        WeighsWith(1, 0, 31, 40_001, Want::Route(-40_000, &[0])),
    ),
    (
        ByHand::ThereAndBack,
        &[Fact::Bar(1, 0)],
        &[100_000, 100_000],
        WeighsWith(1, 0, 30, 90_000, Want::Route(-80_000, &[0, 1])),
    ),
    (
        ByHand::ThereAndBack,
        &[Fact::Bar(1, 0)],
        &[100_000, 100_000],
        WeighsWith(1, 1, 31, 90_000, Want::Route(-80_000, &[0, 1])),
    ),
    (
        ByHand::ThereAndBack,
        &[Fact::Bar(1, 0)],
        &[100_000, 100_000],
        WeighsWith(0, 0, 10_000_000, 90_000, Want::Route(-80_000, &[0, 1])),
    ),
    (
        ByHand::ThereAndBack,
        &[Fact::Must(0, 1)],
        &[100_000, 100_000],
        WeighsWith(1, 0, 31, 90_000, Want::Route(10_000, &[0, 1])),
    ),
    (
        ByHand::ThereAndBack,
        &[Fact::Must(0, 1), Fact::Cut(0, 1)],
        &[100_000, 100_000],
        WeighsWith(1, 0, 31, 90_000, Want::Stuck),
    ),
];

#[test]
fn fees_by_hand(rt: HostRuntime) -> Result<(), Fail> {
    let wrong = first_wrong(rt.alloc(), ONE_QUOTA)?;
    assert!(rt; wrong.is_none(), "case {wrong:?}");
    Ok(())
}

// Mostly on the first day, on which all flights of books by chance begin.
fn quota(dice: &mut Dice) -> Quota {
    Quota {
        airport: dice.below(2),
        day: (dice.below(5) / 4) as i64,
        below: 1 + dice.below(200) as i64,
        most: 0,
    }
}

// So many quotas, each with a fee.
fn due(alloc: Global, seed: u64, count: u32) -> Result<(Vec<Quota>, Fees), Memory> {
    let mut dice = Dice::new(seed);
    let (mut quotas, mut values) = (Vec::new(alloc), Vec::new(alloc));
    for _ in 0..count {
        quotas.push(quota(&mut dice))?;
        values.push(dice.below(150_000) as i64)?;
    }
    Ok((quotas, Fees { values }))
}

// An answer beside all routes with their fees: it is large where fees have changed the least weight.
fn judge(answer: &Priced, weights: &Weights, without: Option<i64>) -> Judged {
    match answer {
        Priced::Stuck => match weights.least(0) {
            None => Judged::Nothing,
            Some(_) => Judged::Wrong,
        },
        Priced::Best { value, route } => {
            if weights.least(0) != Some(*value) || weights.of(&route.0) != Some(*value) {
                Judged::Wrong
            } else if without != Some(*value) {
                Judged::Large
            } else {
                Judged::Small
            }
        }
    }
}

// An aircraft, a seed for quotas and their fees, and how many these are.
#[derive(Clone, Copy)]
struct BesideAll(u32, u64, u32);

impl Ask for BesideAll {
    type Answer = Judged;

    fn answer(
        &self,
        alloc: Global,
        problem: &Problem,
        marks: &Marks,
        duals: &Duals,
    ) -> Result<Judged, Memory> {
        let BesideAll(k, seed, count) = *self;
        if !has_aircraft(problem.book, k) {
            return Ok(Judged::Wrong);
        }
        let (quotas, fees) = due(alloc, seed, count)?;
        let mut weights = weigh_all(alloc, problem.book, marks, &duals.values, k)?;
        let without = weights.least(0);
        weights.add_fees(problem.book, &quotas, &fees.values);
        match priced(alloc, problem, marks, duals, &quotas, &fees, k) {
            Ok(Some(answer)) => Ok(judge(&answer, &weights, without)),
            Ok(None) => Ok(Judged::Wrong),
            Err(error) => Err(error),
        }
    }
}

// With no quota, one and four, on a hundred books each. Fees change what some aircraft weigh at least.
#[test]
fn as_all_routes_weigh_with_fees(rt: HostRuntime) -> Result<(), Fail> {
    let mut tally = Tally::new();
    for &(first, count) in &[(0, 0u32), (100, 1), (200, 4)] {
        for seed in first..first + 100u64 {
            for k in 0..2 {
                tally.add(
                    seed,
                    k,
                    answer_by_chance(rt.alloc(), seed, &BesideAll(k, seed, count))?,
                );
            }
        }
    }
    assert!(rt; tally.wrong.is_none(), "{:?}", tally.wrong);
    let (stuck, changed) = (tally.nothing, tally.large);
    assert!(rt;
        stuck > 30 && changed > 20,
        "{stuck} stuck, {changed} changed"
    );
    Ok(())
}
