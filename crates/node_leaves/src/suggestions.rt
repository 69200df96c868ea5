//! What a pool and a search suggest to each other: cuts for pricing, from what the pool's routes weigh, and routes for the
//! pool, from the rows of a search.
//!
//! A cut needs no proof, since pricing looks further out where nothing is within it. A route is judged before it is added:
//! it has to be legal for its aircraft and to fit the marks.

ghost use Rattle.std.specs.Prelude.{◌≡◌, ◌<◌, ◌+◌, length};
ghost use Rattle.tail_book.specs.Lookup.{activities, aircraft};
ghost use Rattle.tail_book.specs.declared.place.Place.TheVariants.{Carry};
ghost use Rattle.tail_book.specs.CostTable.{IsTableFor};
ghost use Rattle.tail_book.specs.inside.Rising.{IsRisingFrom};
ghost use Rattle.maint_counters.specs.inside.StepTable.{IsStepTableOf};
ghost use Rattle.branch_marks.specs.Settled.{AreDuals};
ghost use Rattle.branch_marks.specs.inside.MarkTables.{AreMarksOf};
ghost use Rattle.route_search.specs.Search.{IsSearchOf};
ghost use Rattle.node_leaves.specs.inside.Leaf.{IsReady};
ghost use Rattle.node_leaves.specs.inside.FittingPool.{IsFittingPool};

use crate::NodePricer;
use branch_marks::Marks;
use connection_net::Net;
use maint_counters::{StepTable, is_legal_route};
use restricted_master::Pool;
use route_search::{RouteSearch, Suggestions};
use std::alloc::Global;
use tail_book::laws::every_book_is_sound;
use tail_book::{Book, CostTable, Duals, Memory, Route};

/// For each aircraft the least weight of its routes in a pool, in thousandths of a cost unit: no least weight is above
/// it, if those routes fit.
pub fn cuts_of(alloc: Global, book: &Book, pool: &Pool, duals: &Duals) -> Result<Vec<i64>, Memory> {
    let mut cuts = vec![in alloc; i64::MAX; book.tails.len()]?;
    for i in 0..pool.count() {
        let weight = pool.weight(i, &duals.values);
        if let Some(cut) = cuts.get_mut(pool.aircraft(i) as usize) {
            *cut = weight.min(*cut);
        }
    }
    Ok(cuts)
}

// Adds a route of an aircraft to a pool, if it is legal and fits.
fn add_judged(
    book: &Book,
    table: &CostTable,
    marks: &Marks,
    pool: &mut Pool,
    k: u32,
    route: &Route,
    steps: &StepTable,
    row: &mut [i64],
) -> Result<(), Memory>
    requires table { IsTableFor book.now table.now }
    requires marks { AreMarksOf book.now marks.now }
    requires pool { IsFittingPool table.now book.now marks.now.facts pool.old }
    requires aircraft { k < aircraft book.now }
    requires rising { IsRisingFrom (activities book.now) Carry route.now }
    requires steps { IsStepTableOf book.now steps.now }
    requires width { length row.old ≡ 1 + length book.now.rules.counters }
    ensures pool { IsFittingPool table.now book.now marks.now.facts pool.new }
    ensures width { length row.new ≡ length row.old }
{
    every_book_is_sound(book);
    if marks.fits(book, k, &route.0) && is_legal_route(book, steps, k, &route.0, &mut row[1..]) {
        let _ = pool.add(book, table, k, route)?;
    }
    Ok(())
}

// Adds a suggested route to a pool, if it is legal and fits.
fn add_suggested(
    alloc: Global,
    book: &Book,
    table: &CostTable,
    marks: &Marks,
    pool: &mut Pool,
    k: u32,
    suggested: &Suggestions,
    i: usize,
    search: &mut RouteSearch,
) -> Result<(), Memory>
    requires table { IsTableFor book.now table.now }
    requires marks { AreMarksOf book.now marks.now }
    requires pool { IsFittingPool table.now book.now marks.now.facts pool.old }
    requires aircraft { k < aircraft book.now }
    requires search { IsSearchOf book.now search.old }
    ensures pool { IsFittingPool table.now book.now marks.now.facts pool.new }
    ensures search { IsSearchOf book.now search.new }
{
    let route = Route(Vec::from_slice(alloc, suggested.route(book, i))?);
    add_judged(
        book,
        table,
        marks,
        pool,
        k,
        &route,
        &search.steps,
        &mut search.row,
    )
}

// Adds to a pool what a search suggested for an aircraft.
fn add_suggestions(
    alloc: Global,
    book: &Book,
    table: &CostTable,
    marks: &Marks,
    pool: &mut Pool,
    k: u32,
    suggested: &Suggestions,
    search: &mut RouteSearch,
) -> Result<(), Memory>
    requires table { IsTableFor book.now table.now }
    requires marks { AreMarksOf book.now marks.now }
    requires pool { IsFittingPool table.now book.now marks.now.facts pool.old }
    requires aircraft { k < aircraft book.now }
    requires search { IsSearchOf book.now search.old }
    ensures pool { IsFittingPool table.now book.now marks.now.facts pool.new }
    ensures search { IsSearchOf book.now search.new }
{
    for i in 0..suggested.count() {
        add_suggested(alloc, book, table, marks, pool, k, suggested, i, search)?;
    }
    Ok(())
}

/// Adds to a pool what searches suggested for each aircraft.
pub fn add_all_suggestions(
    alloc: Global,
    book: &Book,
    table: &CostTable,
    marks: &Marks,
    pool: &mut Pool,
    suggested: &[Suggestions],
    search: &mut RouteSearch,
) -> Result<(), Memory>
    requires table { IsTableFor book.now table.now }
    requires marks { AreMarksOf book.now marks.now }
    requires pool { IsFittingPool table.now book.now marks.now.facts pool.old }
    requires search { IsSearchOf book.now search.old }
    ensures pool { IsFittingPool table.now book.now marks.now.facts pool.new }
    ensures search { IsSearchOf book.now search.new }
{
    every_book_is_sound(book);
    for k in 0..book.tails.len() as u32 {
        if let Some(suggested) = suggested.get(k as usize) {
            add_suggestions(alloc, book, table, marks, pool, k, suggested, search)?;
        }
    }
    Ok(())
}

/// For each of so many aircraft no suggestion yet.
pub fn no_suggestions(alloc: Global, aircraft: usize) -> Result<Vec<Suggestions>, Memory> {
    let mut suggested = Vec::new(alloc);
    for _aircraft in 0..aircraft {
        suggested.push(Suggestions::new(alloc))?;
    }
    Ok(suggested)
}

impl NodePricer {
    /// Keeps what the last search suggests, which found this least weight of the aircraft: the best route through each activity
    /// that is heavier by the slack at most. Without a slack nothing is suggested.
    pub fn suggest_routes(
        &mut self,
        book: &Book,
        table: &CostTable,
        net: &Net,
        marks: &Marks,
        duals: &Duals,
        k: u32,
        value: &i64,
        slack: u32,
    ) -> Result<(), Memory>
        requires ready { IsReady table.now book.now net.now marks.now self.old }
        requires duals { AreDuals table.now book.now duals.now.values }
        requires aircraft { k < aircraft book.now }
        ensures ready { IsReady table.now book.now net.now marks.now self.new }
    {
        if slack == 0 {
            return Ok(());
        }
        let Some(suggested) = self.suggested.get_mut(k as usize) else {
            return Ok(());
        };
        let cut = value.saturating_add(i64::from(slack));
        self.search
            .suggest(book, table, net, marks, duals, k, cut, suggested)
    }
}
