//! The fullest legal route of an aircraft: where nothing costs anything, the least route is the one whose activities are worth most.

ghost use Rattle.std.specs.Prelude.{◌<◌, ◌≡◌, IfOk, length};
ghost use Rattle.tail_book.specs.Lookup.{activities, aircraft};
ghost use Rattle.tail_book.specs.CostTable.{IsTableFor};
ghost use Rattle.fullest_plan.specs.inside.Seeker.{IsSeekerOf};

use crate::worths::boxed;
use branch_marks::Marks;
use connection_net::Net;
use route_search::{LeastWithin, RouteSearch};
use std::alloc::Global;
use tail_book::laws::every_book_is_sound;
use tail_book::{Book, CostTable, Memory, Route};

// The most that an entry of the table may cost, in cost units: none costs anything, and this makes the box of duals wide.
const WIDE: u64 = 1_000_000;

/// What seeks routes of a book's aircraft.
#[derive(Drop)]
pub struct RouteSeeker {
    pub table: CostTable,
    pub net: Net,
    pub marks: Marks,
    pub search: RouteSearch,
}

// The table by which nothing costs anything, with a wide box.
fn wide_table(alloc: Global, book: &Book) -> Result<CostTable, Memory>
    ensures { IfOk result (IsTableFor book.now) }
{
    every_book_is_sound(book);
    let (n, m) = (book.activities.len(), book.tails.len());
    let fly = vec![in alloc; 0; n * m]?;
    Ok(CostTable {
        n,
        m,
        fly,
        bands: Vec::new(alloc),
        fly_max: WIDE,
        band_max: 0,
    })
}

impl RouteSeeker {
    /// What seeks routes of this book.
    pub fn new(alloc: Global, book: &Book) -> Result<RouteSeeker, Memory>
        ensures { IfOk result (IsSeekerOf book.now) }
    {
        let table = wide_table(alloc, book)?;
        let net = Net::new(alloc, book)?;
        let marks = Marks::new(alloc, book)?;
        let mut search = RouteSearch::new(alloc, book)?;
        // Routes that are nearly the fullest are looked for first.
        search.is_wary = true;
        Ok(RouteSeeker {
            table,
            net,
            marks,
            search,
        })
    }

    /// The legal route of an aircraft whose activities are worth most, in thousandths.
    pub fn fullest_route(
        &mut self,
        alloc: Global,
        book: &Book,
        worths: &[i64],
        k: u32,
    ) -> Result<Route, Memory>
        requires seeker { IsSeekerOf book.now self.old }
        requires worths { length worths.now ≡ activities book.now }
        requires aircraft { k < aircraft book.now }
        ensures seeker { IsSeekerOf book.now self.new }
    {
        let duals = boxed(alloc, book, &self.table, worths)?;
        let found = self
            .search
            .least_route(book, &self.table, &self.net, &self.marks, &duals, k, 0, 0)?;
        match found {
            LeastWithin::Best { route, .. } => Ok(route),
            // Never so, since the empty route is legal, and weighs nothing.
            LeastWithin::NoneWithin => Ok(Route(Vec::new(alloc))),
        }
    }
}
