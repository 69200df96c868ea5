//! Limits of nodes: each number of them up to the size of the tree, depth first and by least bound, on books that make the search
//! branch and on books by chance.

ghost use Rattle.tail_book.specs.CostTable.{IsTableFor};

use super::branching::branching_books;
use super::{book_by_chance, book_of, nodes_in};
use branch_marks::MemTree;
use branch_tree::Limit;
use certified_search::{Order, search_in_order};
use dice::Dice;
use plan_audit::audit_plan;
use small_books::costs;
use std::alloc::Global;
use tail_book::*;

// What is known of the least cost at a limit: a number that it reaches, and what a plan costs if there is one. No plan reaches
// the greatest number.
#[derive(Clone, Copy, PartialEq, Eq)]
struct Known {
    low: u64,
    high: Option<u64>,
}

impl Known {
    // What is known at the end, where this is the least cost.
    fn all(least: Option<u64>) -> Known {
        Known {
            low: least.unwrap_or(u64::MAX),
            high: least,
        }
    }

    // Whether a later number is no lower, and a later plan no dearer.
    fn grows_to(&self, later: Known) -> bool {
        let falls = match (self.high, later.high) {
            (Some(high), Some(cost)) => cost <= high,
            (Some(_), None) => false,
            (None, _) => true,
        };
        self.low <= later.low && falls
    }
}

// What an outcome at a limit tells; nothing where it counted another number of nodes.
fn told_by(outcome: &Outcome, most: u64) -> Option<Known> {
    let (low, high, nodes) = match outcome {
        Outcome::Infeasible => return Some(Known::all(None)),
        Outcome::Optimal(_, cost) => return Some(Known::all(Some(*cost))),
        Outcome::Between {
            low,
            high,
            nodes,
            ..
        } => (*low, Some(*high), *nodes),
        Outcome::Above { low, nodes } => (*low, None, *nodes),
    };
    if nodes == most {
        Some(Known { low, high })
    } else {
        None
    }
}

// Whether this is a legal plan of this cost.
fn costs_so(alloc: Global, book: &Book, table: &CostTable, plan: &Plan, cost: u64) -> bool
    requires { IsTableFor book.now table.now }
{
    audit_plan(alloc, book, table, plan) == Ok(Some(cost))
}

// Whether the plan of an outcome, if it has one, is legal at its cost.
fn is_shown(alloc: Global, book: &Book, table: &CostTable, outcome: &Outcome) -> bool
    requires { IsTableFor book.now table.now }
{
    match outcome {
        Outcome::Optimal(plan, cost) => costs_so(alloc, book, table, plan, *cost),
        Outcome::Between { plan, high, .. } => costs_so(alloc, book, table, plan, *high),
        _ => true,
    }
}

// What an outcome at a limit tells; nothing where it counted another number of nodes, or its plan is not legal at its cost.
fn known_by(
    alloc: Global,
    book: &Book,
    table: &CostTable,
    outcome: &Outcome,
    most: u64,
) -> Option<Known>
    requires { IsTableFor book.now table.now }
{
    if is_shown(alloc, book, table, outcome) {
        told_by(outcome, most)
    } else {
        None
    }
}

// What a search of so many nodes knows, told to this log.
fn known_with(
    alloc: Global,
    book: &Book,
    table: &CostTable,
    order: Order,
    most: u64,
    log: &mut MemTree,
) -> Option<Known>
    requires { IsTableFor book.now table.now }
{
    match search_in_order(alloc, book, table, Limit::Nodes(most), order, log) {
        Ok(outcome) => known_by(alloc, book, table, &outcome, most),
        Err(_) => None,
    }
}

fn known_at(alloc: Global, book: &Book, table: &CostTable, order: Order, most: u64) -> Option<Known>
    requires { IsTableFor book.now table.now }
{
    match MemTree::new(alloc) {
        Ok(mut log) => known_with(alloc, book, table, order, most, &mut log),
        Err(_) => None,
    }
}

// How many nodes the tree has, without a limit; nothing where no search ends.
fn size_of(alloc: Global, book: &Book, table: &CostTable, order: Order) -> Option<u64>
    requires { IsTableFor book.now table.now }
{
    match MemTree::new(alloc) {
        Ok(mut log) => {
            if search_in_order(alloc, book, table, Limit::Free, order, &mut log).is_ok() {
                Some(nodes_in(log.events()))
            } else {
                None
            }
        }
        Err(_) => None,
    }
}

// The first limit at which something is wrong, if there is one: what is known goes back, or it is not all at the size of the
// tree, where this is the least cost.
fn first_wrong(
    alloc: Global,
    book: &Book,
    table: &CostTable,
    order: Order,
    size: u64,
    least: Option<u64>,
) -> Option<u64>
    requires { IsTableFor book.now table.now }
{
    let mut before = Known { low: 0, high: None };
    for most in 0..size.saturating_add(1) {
        match known_at(alloc, book, table, order, most) {
            Some(known) if before.grows_to(known) && known.grows_to(Known::all(least)) => {
                before = known
            }
            _ => return Some(most),
        }
    }
    if before == Known::all(least) {
        None
    } else {
        Some(size)
    }
}

// How many nodes a tree has, and the first limit at which something is wrong, if there is one.
#[derive(Clone, Copy)]
struct Judgment {
    size: u64,
    wrong: Option<u64>,
}

// What is judged wrong from the first limit on.
const WRONG: Judgment = Judgment {
    size: 0,
    wrong: Some(0),
};

fn judged_by(
    alloc: Global,
    book: &Book,
    table: &CostTable,
    order: Order,
    least: Option<u64>,
) -> Judgment
    requires { IsTableFor book.now table.now }
{
    match size_of(alloc, book, table, order) {
        Some(size) => Judgment {
            size,
            wrong: first_wrong(alloc, book, table, order, size, least),
        },
        None => WRONG,
    }
}

// The same by the book's own costs.
fn judged(alloc: Global, book: &Book, order: Order, least: Option<u64>) -> Judgment {
    match costs(alloc, book) {
        Ok(table) => judged_by(alloc, book, &table, order, least),
        Err(_) => WRONG,
    }
}

fn judged_texts(alloc: Global, texts: &[&str; 3], order: Order, least: Option<u64>) -> Judgment {
    match book_of(alloc, texts) {
        Some(book) => judged(alloc, &book, order, least),
        None => WRONG,
    }
}

// Each tree branches, so that it has three nodes or more.
#[test]
fn bounds_rise_to_the_least_cost(rt: HostRuntime) {
    for (number, (texts, least)) in branching_books().iter().enumerate() {
        let Judgment { size, wrong } = judged_texts(rt.alloc(), texts, Order::DepthFirst, *least);
        assert!(rt; size >= 3, "book {number}");
        assert!(rt; wrong.is_none(), "book {number}, limit {wrong:?}");
    }
}

#[test]
fn least_bounds_rise_to_the_least_cost(rt: HostRuntime) {
    for (number, (texts, least)) in branching_books().iter().enumerate() {
        let Judgment { size, wrong } = judged_texts(rt.alloc(), texts, Order::LeastBound, *least);
        assert!(rt; size >= 3, "book {number}");
        assert!(rt; wrong.is_none(), "book {number}, limit {wrong:?}");
    }
}

// The least cost by the enumeration, if that ends; nothing within it where no plan is legal.
fn least_cost(alloc: Global, book: &Book) -> Option<Option<u64>> {
    match plan_enumeration::least_plan(alloc, book) {
        Ok(Outcome::Optimal(_, cost)) => Some(Some(cost)),
        Ok(_) => Some(None),
        Err(_) => None,
    }
}

// The first limit at which something is wrong of a book, if there is one.
fn wrong_of(alloc: Global, book: &Book, order: Order) -> Option<u64> {
    match least_cost(alloc, book) {
        Some(least) => judged(alloc, book, order, least).wrong,
        None => Some(0),
    }
}

// The same of the next book.
fn next_wrong(alloc: Global, dice: &mut Dice, order: Order) -> Option<u64> {
    match book_by_chance(alloc, dice) {
        Some(book) => wrong_of(alloc, &book, order),
        None => Some(0),
    }
}

#[test]
fn limits_of_books_by_chance_are_right(rt: HostRuntime) {
    let mut dice = Dice::new(27);
    for turn in 0..100u32 {
        let wrong = next_wrong(rt.alloc(), &mut dice, Order::DepthFirst);
        assert!(rt; wrong.is_none(), "book {turn}, limit {wrong:?}");
    }
}

#[test]
fn limits_by_least_bound_of_books_by_chance_are_right(rt: HostRuntime) {
    let mut dice = Dice::new(54);
    for turn in 0..100u32 {
        let wrong = next_wrong(rt.alloc(), &mut dice, Order::LeastBound);
        assert!(rt; wrong.is_none(), "book {turn}, limit {wrong:?}");
    }
}
