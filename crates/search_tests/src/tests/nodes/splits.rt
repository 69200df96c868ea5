//! Splits of roots: those of the books that make the search branch. What each of them holds is judged by plain means: its routes
//! and duals come to its bound, its pair is about the first activity that the routes do not fly once, and its dive ended so.

ghost use Rattle.std.specs.Prelude.{◌≡◌, ◌<◌, IfOk};
ghost use Rattle.tail_book.specs.Lookup.{activities};
ghost use Rattle.tail_book.specs.CostTable.{IsTableFor};
ghost use Rattle.connection_net.specs.Net.{net_of};
ghost use Rattle.branch_marks.specs.Settled.{AreDuals};
ghost use Rattle.branch_marks.specs.inside.MarkTables.{AreMarksOf};
ghost use Rattle.node_leaves.specs.inside.FittingPool.{IsLegalPool};

use crate::tests::book_of;
use crate::tests::branching::branching_books;
use branch_marks::{Fact, Marks, NoLog, Pair};
use branch_tree::{Best, NodePricer, PricedLeaf, Step, bound_below, node_step, price_leaf};
use connection_net::Net;
use dive_heuristic::{DeadEnd, Dive, DiveStep};
use plan_audit::audit_plan;
use restricted_master::{Pool, number_of};
use small_books::{are_duals, costs, marks};
use std::alloc::Global;
use tail_book::*;

// What the pool says that a route of an aircraft weighs, if it has that route.
fn weight_in(pool: &Pool, duals: &Duals, k: usize, route: &Route) -> Option<i64> {
    for i in 0..pool.count() {
        if pool.aircraft(i) as usize == k && pool.route(i) == route.0.as_slice() {
            return Some(pool.weight(i, &duals.values));
        }
    }
    None
}

// All duals and what the routes weigh, or 0 if that is negative; nothing where the pool lacks one of the routes.
fn bound_of(pool: &Pool, duals: &Duals, routes: &[Route]) -> Option<i128> {
    let mut sum = 0i128;
    for dual in &duals.values {
        sum = sum.saturating_add(i128::from(*dual));
    }
    for (k, route) in routes.iter().enumerate() {
        sum = sum.saturating_add(i128::from(weight_in(pool, duals, k, route)?));
    }
    Some(sum.max(0))
}

// How many routes have an activity, and the first of them.
fn holders(routes: &[Route], a: u32) -> (usize, Option<usize>) {
    let (mut times, mut first) = (0usize, None);
    for (k, route) in routes.iter().enumerate() {
        if route.0.contains(&a) {
            times = times.saturating_add(1);
            first = first.or(Some(k));
        }
    }
    (times, first)
}

// What comes directly before an activity in a route, if anything does.
fn before(route: &Route, a: u32) -> Option<u32> {
    let mut last = None;
    for b in &route.0 {
        if *b == a {
            return last;
        }
        last = Some(*b);
    }
    None
}

// Whether a fact is among the marks.
fn is_there(marks: &Marks, fact: Fact) -> bool {
    for i in 0..marks.mark() {
        if marks.fact_at(i) == fact {
            return true;
        }
    }
    false
}

// The pair at an activity that an aircraft flies on its route: the connection to it, unless that is tied.
fn pair_on(marks: &Marks, route: &Route, k: u32, a: u32) -> Pair {
    match before(route, a) {
        Some(x) if !is_there(marks, Fact::Tie(x, a)) => Pair::Link(x, a),
        _ => Pair::Fly(k, a),
    }
}

// Whether a pair is the one at an activity that these routes do not fly once.
fn is_at(book: &Book, marks: &Marks, routes: &[Route], pair: Pair, a: u32) -> bool
    requires marks { AreMarksOf book.now marks.now }
    requires activity { a < activities book.now }
{
    match holders(routes, a).1 {
        Some(k) if k < routes.len() => pair == pair_on(marks, &routes[k], number_of(k), a),
        _ => pair == Pair::Fly(marks.next_alive(book, a, 0), a),
    }
}

// Whether it is so at the first such activity.
fn is_due(book: &Book, marks: &Marks, routes: &[Route], pair: Pair) -> bool
    requires { AreMarksOf book.now marks.now }
{
    for a in 0..book.activities.len() as u32 {
        if holders(routes, a).0 != 1 {
            return is_at(book, marks, routes, pair, a);
        }
    }
    false
}

// The facts of marks, and those of steps.
fn facts_after(alloc: Global, before: &Marks, steps: &[DiveStep]) -> Result<Vec<Fact>, Memory> {
    let mut facts = before.copy_of_facts(alloc)?;
    for step in steps {
        let (DiveStep::Chosen(fact) | DiveStep::Forced(fact)) = *step;
        facts.push(fact)?;
    }
    Ok(facts)
}

// The marks with the facts of steps.
fn marks_after(
    alloc: Global,
    book: &Book,
    before: &Marks,
    steps: &[DiveStep],
) -> Result<Marks, Memory>
    ensures { IfOk result (AreMarksOf book.now) }
{
    let facts = facts_after(alloc, before, steps)?;
    marks(alloc, book, &facts)
}

// Whether nobody is alive at an activity of the book.
fn is_hole(book: &Book, marks: &Marks, a: u32) -> bool
    requires { AreMarksOf book.now marks.now }
{
    (a as usize) < book.activities.len()
        && marks.next_alive(book, a, 0) as usize == book.tails.len()
}

// Whether pricing finds an aircraft that is stuck.
fn is_stuck(
    alloc: Global,
    book: &Book,
    table: &CostTable,
    net: &Net,
    marks: &Marks,
    duals: &Duals,
) -> Result<bool, Memory>
    requires table { IsTableFor book.now table.now }
    requires net { net.now ≡ net_of book.now }
    requires marks { AreMarksOf book.now marks.now }
    requires duals { AreDuals table.now book.now duals.now.values }
{
    let mut prices = NodePricer::new(alloc, book, table)?;
    let priced = price_leaf(
        alloc,
        book,
        table,
        net,
        marks,
        duals,
        &mut prices,
        &mut NoLog,
    );
    Ok(priced == Ok(PricedLeaf::Stuck))
}

// Whether the marks with the facts of a dive's steps are the dead end that it tells.
fn is_dead_after(
    alloc: Global,
    book: &Book,
    table: &CostTable,
    net: &Net,
    before: &Marks,
    duals: &Duals,
    steps: &[DiveStep],
    end: DeadEnd,
) -> Result<bool, Memory>
    requires table { IsTableFor book.now table.now }
    requires net { net.now ≡ net_of book.now }
    requires duals { AreDuals table.now book.now duals.now.values }
{
    let marks = marks_after(alloc, book, before, steps)?;
    match end {
        DeadEnd::Hole(a) => Ok(is_hole(book, &marks, a)),
        DeadEnd::Stuck(_) => is_stuck(alloc, book, table, net, &marks, duals),
    }
}

// Whether a plan is legal at this cost, and the target is at most that.
fn is_used(
    alloc: Global,
    book: &Book,
    table: &CostTable,
    target: u64,
    plan: &Plan,
    cost: u64,
) -> Result<bool, Memory>
    requires { IsTableFor book.now table.now }
{
    Ok(target <= cost && audit_plan(alloc, book, table, plan)? == Some(cost))
}

// Whether a dive ended as it tells: at a legal plan, or at a dead end.
fn has_ended_so(
    alloc: Global,
    book: &Book,
    table: &CostTable,
    net: &Net,
    before: &Marks,
    duals: &Duals,
    target: u64,
    dive: &Dive,
) -> Result<bool, Memory>
    requires table { IsTableFor book.now table.now }
    requires net { net.now ≡ net_of book.now }
    requires duals { AreDuals table.now book.now duals.now.values }
{
    match dive {
        Dive::Plan(plan, cost) => is_used(alloc, book, table, target, plan, *cost),
        Dive::Dead { steps, end } => {
            is_dead_after(alloc, book, table, net, before, duals, steps, *end)
        }
    }
}

// What is wrong of a split's routes, its bound and its pair, if anything is.
fn wrong_of_routes(
    book: &Book,
    marks: &Marks,
    pool: &Pool,
    duals: &Duals,
    target: u64,
    routes: &[Route],
    bound: i128,
    pair: Pair,
) -> Option<&'static str>
    requires { AreMarksOf book.now marks.now }
{
    if routes.len() != book.tails.len() || bound_of(pool, duals, routes) != Some(bound) {
        return Some("routes");
    }
    if bound_below(bound, target).is_none() {
        return Some("bound");
    }
    if !is_due(book, marks, routes, pair) {
        return Some("pair");
    }
    None
}

// What is wrong of the answer of a step on the root, if anything is.
fn wrong_of_step(
    alloc: Global,
    book: &Book,
    table: &CostTable,
    net: &Net,
    marks: &Marks,
    pool: &Pool,
    duals: &Duals,
    target: u64,
    step: &Step,
) -> Result<Option<&'static str>, Memory>
    requires table { IsTableFor book.now table.now }
    requires net { net.now ≡ net_of book.now }
    requires marks { AreMarksOf book.now marks.now }
    requires duals { AreDuals table.now book.now duals.now.values }
{
    let Step::Split {
        pair,
        bound,
        routes,
        dive,
    } = step
    else {
        return Ok(Some("no split"));
    };
    let wrong = wrong_of_routes(book, marks, pool, duals, target, routes, *bound, *pair);
    if wrong.is_some() {
        return Ok(wrong);
    }
    if has_ended_so(alloc, book, table, net, marks, duals, target, dive)? {
        Ok(None)
    } else {
        Ok(Some("dive"))
    }
}

// The same of a step from these marks, with this pool.
fn wrong_with(
    alloc: Global,
    book: &Book,
    table: &CostTable,
    net: &Net,
    marks: &mut Marks,
    pool: &mut Pool,
    duals: &mut Duals,
) -> Result<Option<&'static str>, Memory>
    requires table { IsTableFor book.now table.now }
    requires net { net.now ≡ net_of book.now }
    requires marks { AreMarksOf book.now marks.old }
    requires pool { IsLegalPool table.now book.now pool.old }
    requires duals { AreDuals table.now book.now duals.old.values }
{
    let mut best = Best::none(table);
    let step = node_step(
        alloc, book, table, net, marks, pool, duals, &mut best, &mut NoLog,
    );
    match &step {
        Ok(step) => wrong_of_step(
            alloc,
            book,
            table,
            net,
            marks,
            pool,
            duals,
            best.target,
            step,
        ),
        Err(_) => Ok(Some("stop")),
    }
}

// The same with a pool in which nothing is yet.
fn wrong_from(
    alloc: Global,
    book: &Book,
    table: &CostTable,
    net: &Net,
    marks: &mut Marks,
    duals: &mut Duals,
) -> Result<Option<&'static str>, Memory>
    requires table { IsTableFor book.now table.now }
    requires net { net.now ≡ net_of book.now }
    requires marks { AreMarksOf book.now marks.old }
    requires duals { AreDuals table.now book.now duals.old.values }
{
    let mut pool = Pool::new(alloc)?;
    wrong_with(alloc, book, table, net, marks, &mut pool, duals)
}

// The same of a step on the root under these duals.
fn wrong_under(
    alloc: Global,
    book: &Book,
    table: &CostTable,
    duals: &mut Duals,
) -> Result<Option<&'static str>, Memory>
    requires table { IsTableFor book.now table.now }
    requires duals { AreDuals table.now book.now duals.old.values }
{
    let net = Net::new(alloc, book)?;
    let mut marks = Marks::new(alloc, book)?;
    wrong_from(alloc, book, table, &net, &mut marks, duals)
}

// The same under zeros.
fn wrong_by(alloc: Global, book: &Book, table: &CostTable) -> Result<Option<&'static str>, Memory>
    requires { IsTableFor book.now table.now }
{
    let values = vec![in alloc; 0i64; book.activities.len()]?;
    let mut duals = Duals { values };
    if are_duals(book, table, &duals) {
        wrong_under(alloc, book, table, &mut duals)
    } else {
        Ok(Some("duals"))
    }
}

// The same by the book's own costs.
fn wrong_at_root(alloc: Global, book: &Book) -> Result<Option<&'static str>, Memory> {
    let table = costs(alloc, book)?;
    wrong_by(alloc, book, &table)
}

fn wrong_of_texts(alloc: Global, texts: &[&str; 3]) -> Option<&'static str> {
    match book_of(alloc, texts) {
        Some(book) => wrong_at_root(alloc, &book).unwrap_or(Some("memory")),
        None => Some("no book"),
    }
}

#[test]
fn roots_that_branch_are_split(rt: HostRuntime) {
    for (number, (texts, _)) in branching_books().iter().enumerate() {
        let wrong = wrong_of_texts(rt.alloc(), texts);
        assert!(rt; wrong.is_none(), "book {number}: {wrong:?}");
    }
}
