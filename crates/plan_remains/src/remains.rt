//! What is left of a published plan: of each route the fullest part that is legal by itself.
//!
//! By the table on which each move costs 1, that part is the least route of its aircraft, where each activity at home is worth
//! a cost unit, and any other costs more than all of them are worth. It only suggests where a repair begins.

ghost use Rattle.std.specs.Prelude.{◌≡◌, ◌<◌, IfOk, length};
ghost use Rattle.tail_book.specs.Lookup.{activities, aircraft};
ghost use Rattle.branch_marks.specs.inside.MarkTables.{AreMarksOf};
ghost use Rattle.plan_finder.specs.Problem.{IsProblem};
ghost use Rattle.route_search.specs.Search.{IsSearchOf};

use crate::boxed_duals::boxed;
use branch_marks::Marks;
use plan_finder::Problem;
use route_search::{LeastWithin, RouteSearch};
use std::alloc::Global;
use tail_book::laws::every_book_is_sound;
use tail_book::{Book, Memory, Route};

// What an activity at home is worth, in thousandths of a cost unit.
const AT_HOME: i64 = 1_000;

// What one is worth that no other aircraft may fly, and what any other costs: past any box of a table of moves.
const MUCH: i64 = 2_000_000;

/// The legal part of each home route, and which activities these parts have.
#[derive(Drop)]
pub struct Remains {
    pub routes: Vec<Route>,
    pub kept: Vec<bool>,
}

// What an activity is worth to an aircraft.
fn worth(book: &Book, homes: &[Option<u32>], k: u32, a: usize) -> i64
    requires { a < activities book.now }
{
    if book.activities[a].tail == Some(k) {
        return MUCH;
    }
    match homes.get(a) {
        Some(Some(home)) => { if *home == k { AT_HOME } else { -MUCH } }
        _ => -MUCH,
    }
}

// What each activity is worth to it.
fn worth_of_all(
    alloc: Global,
    book: &Book,
    homes: &[Option<u32>],
    k: u32,
) -> Result<Vec<i64>, Memory>
    ensures { IfOk result (λ list. length list.items ≡ activities book.now) }
{
    let mut list = Vec::with_capacity(alloc, book.activities.len())?;
    for a in 0..book.activities.len() {
        list.push(worth(book, homes, k, a))?;
    }
    Ok(list)
}

// The legal part of the home route of an aircraft.
fn legal_part(
    alloc: Global,
    problem: &Problem,
    marks: &Marks,
    homes: &[Option<u32>],
    k: u32,
    search: &mut RouteSearch,
) -> Result<Route, Memory>
    requires problem { IsProblem problem.now }
    requires marks { AreMarksOf problem.now.book.now marks.now }
    requires aircraft { k < aircraft problem.now.book.now }
    requires search { IsSearchOf problem.now.book.now search.old }
    ensures search { IsSearchOf problem.now.book.now search.new }
{
    let Problem { book, table, net } = *problem;
    let worths = worth_of_all(alloc, book, homes, k)?;
    let duals = boxed(alloc, book, table, &worths)?;
    match search.least_route(book, table, net, marks, &duals, k, 0, 0)? {
        LeastWithin::Best { route, .. } => Ok(route),
        LeastWithin::NoneWithin => Ok(Route(Vec::new(alloc))),
    }
}

// The legal part of each home route.
fn legal_parts(
    alloc: Global,
    problem: &Problem,
    marks: &Marks,
    homes: &[Option<u32>],
) -> Result<Vec<Route>, Memory>
    requires problem { IsProblem problem.now }
    requires marks { AreMarksOf problem.now.book.now marks.now }
{
    let book = problem.book;
    every_book_is_sound(book);
    let mut search = RouteSearch::new(alloc, book)?;
    let mut routes = Vec::with_capacity(alloc, book.tails.len())?;
    for k in 0..book.tails.len() as u32 {
        routes.push(legal_part(alloc, problem, marks, homes, k, &mut search)?)?;
    }
    Ok(routes)
}

// Notes the activities of a route.
fn note(kept: &mut [bool], route: &[u32]) {
    for a in route {
        if let Some(place) = kept.get_mut(*a as usize) {
            *place = true;
        }
    }
}

/// What is left of the routes in which each activity is flown at home. The table is that of moves.
pub fn remains_of(
    alloc: Global,
    problem: &Problem,
    marks: &Marks,
    homes: &[Option<u32>],
) -> Result<Remains, Memory>
    requires problem { IsProblem problem.now }
    requires marks { AreMarksOf problem.now.book.now marks.now }
{
    let book = problem.book;
    let routes = legal_parts(alloc, problem, marks, homes)?;
    let mut kept = vec![in alloc; false; book.activities.len()]?;
    for i in 0..routes.len() {
        note(&mut kept, &routes[i].0);
    }
    Ok(Remains { routes, kept })
}
