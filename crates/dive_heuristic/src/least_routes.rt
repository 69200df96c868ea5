//! Routes of least weight, kept while marks grow.
//!
//! Facts only remove routes. So one that still fits is still of least weight, and only an aircraft whose route no longer
//! fits is priced again. To see whether a route fits costs a few reads for each of its activities.

ghost use Rattle.std.specs.Prelude.{◌<◌, IfOk, IfSome, IfNone};
ghost use Rattle.tail_book.specs.Lookup.{aircraft};
ghost use Rattle.branch_marks.specs.DeadEnds.{IsStuck};
ghost use Rattle.branch_marks.specs.inside.MarkTables.{AreMarksOf};
ghost use Rattle.dive_heuristic.specs.LeastRoutes.{IsLeastRoute, AreLeastRoutes};
ghost use Rattle.dive_heuristic.specs.Dive.{IsDeadEnd};
ghost use Rattle.dive_heuristic.specs.Divers.{IsDiverFor};
ghost use Rattle.dive_heuristic.specs.inside.DiveSteps.{IsAsked};
ghost use Rattle.dive_heuristic.specs.inside.Kept.{AreLowRoutes, AreFirstRoutes};

use crate::answer::DeadEnd;
use crate::diver::Diver;
use branch_marks::Marks;
use connection_net::Net;
use pricing::Priced;
use std::alloc::Global;
use tail_book::laws::every_book_is_sound;
use tail_book::{Book, CostTable, Duals, Memory, Route};

/// The first routes of a dive, or why there are none.
#[derive(Debug, Drop)]
pub enum FirstRoutes {
    /// A route of least weight for each aircraft.
    Routes(Vec<Route>),
    /// An aircraft has no route.
    Dead(DeadEnd),
}

// A route of least weight, if the aircraft is not stuck.
fn least_route(
    book: &Book,
    table: &CostTable,
    net: &Net,
    duals: &Duals,
    marks: &Marks,
    k: u32,
    diver: &mut Diver,
) -> Result<Option<Route>, Memory>
    requires asked { IsAsked book.now table.now net.now duals.now.values }
    requires marks { AreMarksOf book.now marks.now }
    requires aircraft { k < aircraft book.now }
    requires diver { IsDiverFor book.now table.now marks.now.facts diver.old }
    ensures some { IfOk result (λ found. IfSome found (IsLeastRoute table.now book.now marks.now.facts k duals.now.values)) }
    ensures none { IfOk result (λ found. IfNone found (IsStuck book.now marks.now.facts k)) }
    ensures diver { IsDiverFor book.now table.now marks.now.facts diver.new }
{
    let priced = diver
        .pricer
        .price(book, table, net, marks, duals, k, &mut diver.store)?;
    match priced {
        Priced::Best { route, .. } => Ok(Some(route)),
        Priced::Stuck => Ok(None),
    }
}

/// A route of least weight for each aircraft, if none is stuck.
pub fn first_routes(
    alloc: Global,
    book: &Book,
    table: &CostTable,
    net: &Net,
    duals: &Duals,
    marks: &Marks,
    diver: &mut Diver,
) -> Result<FirstRoutes, Memory>
    requires asked { IsAsked book.now table.now net.now duals.now.values }
    requires marks { AreMarksOf book.now marks.now }
    requires diver { IsDiverFor book.now table.now marks.now.facts diver.old }
    ensures found { IfOk result (AreFirstRoutes table.now book.now marks.now.facts duals.now.values) }
    ensures diver { IsDiverFor book.now table.now marks.now.facts diver.new }
{
    every_book_is_sound(book);
    let mut routes = Vec::new(alloc);
    for k in 0..book.tails.len() as u32 {
        match least_route(book, table, net, duals, marks, k, diver)? {
            Some(route) => routes.push(route)?,
            None => return Ok(FirstRoutes::Dead(DeadEnd::Stuck(k))),
        }
    }
    Ok(FirstRoutes::Routes(routes))
}

/// Prices those aircraft again whose routes no longer fit; a dead end where one of them is stuck.
pub fn renew(
    book: &Book,
    table: &CostTable,
    net: &Net,
    duals: &Duals,
    marks: &Marks,
    routes: &mut Vec<Route>,
    diver: &mut Diver,
) -> Result<Option<DeadEnd>, Memory>
    requires asked { IsAsked book.now table.now net.now duals.now.values }
    requires marks { AreMarksOf book.now marks.now }
    requires low { AreLowRoutes table.now book.now marks.now.facts duals.now.values routes.old.items }
    requires diver { IsDiverFor book.now table.now marks.now.facts diver.old }
    ensures least { IfOk result (λ end. IfNone end (AreLeastRoutes table.now book.now marks.now.facts duals.now.values routes.new.items)) }
    ensures dead { IfOk result (λ end. IfSome end (IsDeadEnd book.now marks.now.facts)) }
    ensures diver { IsDiverFor book.now table.now marks.now.facts diver.new }
{
    every_book_is_sound(book);
    for k in 0..book.tails.len() as u32 {
        let route = &routes[k as usize];
        if marks.fits(book, k, &route.0) {
            continue;
        }
        match least_route(book, table, net, duals, marks, k, diver)? {
            Some(route) => routes[k as usize] = route,
            None => return Ok(Some(DeadEnd::Stuck(k))),
        }
    }
    Ok(None)
}
