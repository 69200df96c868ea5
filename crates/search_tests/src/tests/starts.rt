//! Searches that begin with a legal plan: on a book that is known by hand, with its least plan and with a dearer one, and on
//! books that make the search branch, with the plan that another search holds at its limit. On these also searches that begin warm,
//! with whatever duals.

ghost use Rattle.std.specs.Prelude.{IfSome};
ghost use Rattle.tail_book.specs.Plan.{IsLegalPlan};
ghost use Rattle.tail_book.specs.CostTable.{IsTableFor};

use super::book_of;
use super::branching::branching_books;
use super::worked::{AT_ONCE, CHEAP_AND_DEAR, RULES};
use branch_marks::NoLog;
use branch_tree::{Limit, WarmStart, search_from};
use dice::Dice;
use plan_audit::audit_plan;
use small_books::costs;
use std::alloc::Global;
use tail_book::*;

// What a search with these starts claims.
fn claim_with(
    alloc: Global,
    book: &Book,
    table: &CostTable,
    limit: Limit,
    start: Option<&Plan>,
    warm: Option<WarmStart>,
) -> Option<Claim>
    requires table { IsTableFor book.now table.now }
    requires legal { IfSome start (λ plan. IsLegalPlan book.now plan.now) }
{
    match search_from(alloc, book, table, limit, start, warm, &mut NoLog) {
        Ok(outcome) => Some(claim_of(&outcome)),
        Err(_) => None,
    }
}

// The same of a plan that is legal at this cost; nothing of any other.
fn claim_from(
    alloc: Global,
    book: &Book,
    table: &CostTable,
    limit: Limit,
    start: &Plan,
    cost: u64,
    warm: Option<WarmStart>,
) -> Option<Claim>
    requires { IsTableFor book.now table.now }
{
    match audit_plan(alloc, book, table, start) {
        Ok(Some(found)) => {
            if found == cost {
                claim_with(alloc, book, table, limit, Some(start), warm)
            } else {
                None
            }
        }
        _ => None,
    }
}

// A start of the book by hand: the flight of each of its two aircraft, and what that costs.
#[derive(Clone, Copy)]
struct Start {
    flights: [u32; 2],
    cost: u64,
}

// The cheap aircraft flies the longer flight.
const LEAST: Start = Start {
    flights: [1, 0],
    cost: 240,
};

const DEARER: Start = Start {
    flights: [0, 1],
    cost: 300,
};

// A search of it, and what it claims.
#[derive(Clone, Copy)]
struct Row {
    start: Option<Start>,
    limit: Limit,
    claim: Claim,
}

fn rows() -> &'static [Row] {
    ROWS
}

// Where no node is counted, the root bounds by 0, and the start is all that is known.
const ROWS: &[Row] = &[
    Row {
        start: None,
        limit: Limit::Free,
        claim: Claim::Optimal(240),
    },
    Row {
        start: None,
        limit: Limit::Nodes(0),
        claim: Claim::Limit { low: 0, high: None },
    },
    Row {
        start: Some(LEAST),
        limit: Limit::Free,
        claim: Claim::Optimal(240),
    },
    Row {
        start: Some(LEAST),
        limit: Limit::Nodes(0),
        claim: Claim::Limit {
            low: 0,
            high: Some(240),
        },
    },
    Row {
        start: Some(DEARER),
        limit: Limit::Free,
        claim: Claim::Optimal(240),
    },
    Row {
        start: Some(DEARER),
        limit: Limit::Nodes(0),
        claim: Claim::Limit {
            low: 0,
            high: Some(300),
        },
    },
];

// The plan in which each of two aircraft flies one of these.
fn plan_of(alloc: Global, flights: [u32; 2]) -> Result<Plan, Memory> {
    let first = Route(vec![in alloc; flights[0]]?);
    let second = Route(vec![in alloc; flights[1]]?);
    Ok(Plan(vec![in alloc; first, second]?))
}

fn claim_from_start(
    alloc: Global,
    book: &Book,
    table: &CostTable,
    limit: Limit,
    start: Start,
) -> Option<Claim>
    requires { IsTableFor book.now table.now }
{
    match plan_of(alloc, start.flights) {
        Ok(plan) => claim_from(alloc, book, table, limit, &plan, start.cost, None),
        Err(_) => None,
    }
}

// What the search of a row claims by this table.
fn claim_by(alloc: Global, book: &Book, table: &CostTable, row: Row) -> Option<Claim>
    requires { IsTableFor book.now table.now }
{
    match row.start {
        Some(start) => claim_from_start(alloc, book, table, row.limit, start),
        None => claim_with(alloc, book, table, row.limit, None, None),
    }
}

fn is_claimed(alloc: Global, book: &Book, row: Row) -> bool {
    match costs(alloc, book) {
        Ok(table) => claim_by(alloc, book, &table, row) == Some(row.claim),
        Err(_) => false,
    }
}

fn is_right(alloc: Global, row: Row) -> bool {
    match book_of(alloc, &[AT_ONCE, CHEAP_AND_DEAR, RULES]) {
        Some(book) => is_claimed(alloc, &book, row),
        None => false,
    }
}

#[test]
fn dearer_starts_are_undercut(rt: HostRuntime) {
    for (number, row) in rows().iter().enumerate() {
        assert!(rt; is_right(rt.alloc(), *row), "row {number}");
    }
}

// What a search claims that begins with the plan of an outcome, if that has one.
fn claim_after(
    alloc: Global,
    book: &Book,
    table: &CostTable,
    outcome: &Outcome,
    warm: Option<WarmStart>,
) -> Option<Claim>
    requires { IsTableFor book.now table.now }
{
    match outcome {
        Outcome::Optimal(plan, cost) => {
            claim_from(alloc, book, table, Limit::Free, plan, *cost, warm)
        }
        Outcome::Between { plan, high, .. } => {
            claim_from(alloc, book, table, Limit::Free, plan, *high, warm)
        }
        Outcome::Infeasible | Outcome::Above { .. } => {
            claim_with(alloc, book, table, Limit::Free, None, warm)
        }
    }
}

// The same of the outcome at a limit.
fn claim_after_limit(
    alloc: Global,
    book: &Book,
    table: &CostTable,
    limit: Limit,
    warm: Option<WarmStart>,
) -> Option<Claim>
    requires { IsTableFor book.now table.now }
{
    match search_from(alloc, book, table, limit, None, None, &mut NoLog) {
        Ok(outcome) => claim_after(alloc, book, table, &outcome, warm),
        Err(_) => None,
    }
}

// A warm start by chance, of duals between so many thousandths to both sides of 0, each as many times that; so many duals are missing.
#[derive(Clone, Copy)]
struct Warmth {
    spread: u32,
    times: i64,
    missing: usize,
    temperature: i64,
    radius: i64,
    dives: bool,
}

fn warmths() -> &'static [Warmth] {
    WARMTHS
}

// Near the costs; far past the box; none too many; and temperatures and radii that make no sense.
const WARMTHS: &[Warmth] = &[
    Warmth {
        spread: 400_000,
        times: 1,
        missing: 0,
        temperature: 1000,
        radius: 5000,
        dives: true,
    },
    Warmth {
        spread: 400_000,
        times: 1,
        missing: 0,
        temperature: 1000,
        radius: 5000,
        dives: false,
    },
    Warmth {
        spread: 4_000_000_000,
        times: 1 << 30,
        missing: 0,
        temperature: 1,
        radius: 0,
        dives: true,
    },
    Warmth {
        spread: 400_000,
        times: 1,
        missing: 1,
        temperature: 1000,
        radius: 5000,
        dives: true,
    },
    Warmth {
        spread: 400_000,
        times: 1,
        missing: 0,
        temperature: i64::MIN,
        radius: i64::MIN,
        dives: true,
    },
    Warmth {
        spread: 400_000,
        times: 1,
        missing: 0,
        temperature: i64::MAX,
        radius: i64::MAX,
        dives: true,
    },
];

// A dual by chance.
fn next_dual(dice: &mut Dice, warmth: &Warmth) -> i64 {
    let dual = i64::from(dice.below(warmth.spread.max(1))) - i64::from(warmth.spread / 2);
    dual.saturating_mul(warmth.times)
}

fn warm_by_chance(
    alloc: Global,
    book: &Book,
    dice: &mut Dice,
    warmth: &Warmth,
) -> Result<WarmStart, Memory> {
    let mut duals = Vec::new(alloc);
    for _ in warmth.missing..book.activities.len() {
        duals.push(next_dual(dice, warmth))?;
    }
    Ok(WarmStart {
        duals,
        temperature: warmth.temperature,
        radius: warmth.radius,
        dives: warmth.dives,
    })
}

// A warm start of a book, where one is wanted.
fn warm_of(alloc: Global, book: &Book, warmth: Option<&Warmth>) -> Option<WarmStart> {
    match warm_by_chance(alloc, book, &mut Dice::new(31), warmth?) {
        Ok(warm) => Some(warm),
        Err(_) => None,
    }
}

fn claim_again(alloc: Global, book: &Book, limit: Limit, warmth: Option<&Warmth>) -> Option<Claim> {
    let warm = warm_of(alloc, book, warmth);
    match costs(alloc, book) {
        Ok(table) => claim_after_limit(alloc, book, &table, limit, warm),
        Err(_) => None,
    }
}

fn claim_again_of(
    alloc: Global,
    texts: &[&str; 3],
    limit: Limit,
    warmth: Option<&Warmth>,
) -> Option<Claim> {
    match book_of(alloc, texts) {
        Some(book) => claim_again(alloc, &book, limit, warmth),
        None => None,
    }
}

fn claim_wanted(least: Option<u64>) -> Claim {
    match least {
        Some(cost) => Claim::Optimal(cost),
        None => Claim::Infeasible,
    }
}

// Whatever plan a search begins with, it ends with the least cost.
#[test]
fn starts_keep_the_least_cost(rt: HostRuntime) {
    for (number, (texts, least)) in branching_books().iter().enumerate() {
        for limit in &[Limit::Nodes(1), Limit::Free] {
            let found = claim_again_of(rt.alloc(), texts, *limit, None);
            assert!(rt;
                found == Some(claim_wanted(*least)),
                "book {number}, {limit:?}"
            );
        }
    }
}

// Whatever duals a search begins with, and however its ascent begins there, it ends with the least cost: with no plan to begin with, and
// with the plan of a search that has ended.
#[test]
fn warm_starts_keep_the_least_cost(rt: HostRuntime) {
    for (number, (texts, least)) in branching_books().iter().enumerate() {
        for (row, warmth) in warmths().iter().enumerate() {
            for limit in &[Limit::Nodes(0), Limit::Free] {
                let found = claim_again_of(rt.alloc(), texts, *limit, Some(warmth));
                assert!(rt;
                    found == Some(claim_wanted(*least)),
                    "book {number}, {row}, {limit:?}"
                );
            }
        }
    }
}
