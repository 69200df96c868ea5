//! The routes of a search. All that were found are kept, and each node gets those that fit its marks: a step drops the others, and
//! the next node may lie elsewhere in the tree.

ghost use Rattle.std.specs.Prelude.{◌<◌, length, IfOk};
ghost use Rattle.tail_book.specs.Seen.{BookSeen};
ghost use Rattle.tail_book.specs.TableSeen.{CostTableSeen};
ghost use Rattle.tail_book.specs.CostTable.{IsTableFor};
ghost use Rattle.branch_marks.specs.inside.MarkTables.{AreMarksOf};
ghost use Rattle.node_leaves.specs.inside.FittingPool.{IsLegalPool};
ghost use Rattle.node_leaves.specs.inside.SearchRoutes.{AreSearchRoutes};

use branch_marks::Marks;
use restricted_master::{Pool, PoolAdd};
use std::alloc::Global;
use tail_book::laws::{every_book_is_sound, legal_routes_rise};
use tail_book::{Book, CostTable, Memory, Route};

// Beyond so many routes those of the last node alone are kept.
const MOST_KEPT: usize = 200_000;

/// All routes that are kept, and those for the node that comes next.
#[derive(Debug, Drop)]
pub struct SearchRoutes {
    pub all: Pool,
    pub fit: Pool,
}

// Adds a route of one pool to another, and answers whether it is new there.
fn copy_route(
    book: &Book,
    table: &CostTable,
    from: &Pool,
    i: usize,
    to: &mut Pool,
    route: &mut Route,
) -> Result<bool, Memory>
    requires table { IsTableFor book.now table.now }
    requires from { IsLegalPool table.now book.now from.now }
    requires entry { i < length from.now.entries }
    requires to { IsLegalPool table.now book.now to.old }
    ensures { IsLegalPool table.now book.now to.new }
{
    every_book_is_sound(book);
    legal_routes_rise();
    route.0.clear();
    route.0.extend_from_slice(from.route(i))?;
    match to.add(book, table, from.aircraft(i), route)? {
        PoolAdd::New(_) => Ok(true),
        PoolAdd::There(_) => Ok(false),
    }
}

// The routes of a pool that fit marks.
fn fitting(
    alloc: Global,
    book: &Book,
    table: &CostTable,
    marks: &Marks,
    all: &Pool,
) -> Result<Pool, Memory>
    requires table { IsTableFor book.now table.now }
    requires marks { AreMarksOf book.now marks.now }
    requires all { IsLegalPool table.now book.now all.now }
    ensures { IfOk result (IsLegalPool table.now book.now) }
{
    every_book_is_sound(book);
    let mut fit = Pool::new(alloc)?;
    let mut route = Route(Vec::new(alloc));
    for i in 0..all.count() {
        if marks.fits(book, all.aircraft(i), all.route(i)) {
            let _ = copy_route(book, table, all, i, &mut fit, &mut route)?;
        }
    }
    Ok(fit)
}

// Adds to a pool the routes of another that came last and are new.
fn add_last(
    alloc: Global,
    book: &Book,
    table: &CostTable,
    from: &Pool,
    to: &mut Pool,
) -> Result<(), Memory>
    requires table { IsTableFor book.now table.now }
    requires from { IsLegalPool table.now book.now from.now }
    requires to { IsLegalPool table.now book.now to.old }
    ensures { IsLegalPool table.now book.now to.new }
{
    let mut route = Route(Vec::new(alloc));
    for i in (0..from.count()).rev() {
        if !copy_route(book, table, from, i, to, &mut route)? {
            break;
        }
    }
    Ok(())
}

impl SearchRoutes {
    /// No route.
    pub fn new(alloc: Global) -> Result<SearchRoutes, Memory>
        ensures { IfOk result (λ routes. (table : CostTableSeen) (book : BookSeen) → AreSearchRoutes table book routes) }
    {
        Ok(SearchRoutes {
            all: Pool::new(alloc)?,
            fit: Pool::new(alloc)?,
        })
    }

    /// Makes the routes for a node with these marks ready. Where it is a branch of the last node, those that are left of that are all
    /// that fit.
    pub fn fit_to(
        &mut self,
        alloc: Global,
        book: &Book,
        table: &CostTable,
        marks: &Marks,
        is_branch: bool,
    ) -> Result<(), Memory>
        requires table { IsTableFor book.now table.now }
        requires marks { AreMarksOf book.now marks.now }
        requires routes { AreSearchRoutes table.now book.now self.old }
        ensures { AreSearchRoutes table.now book.now self.new }
    {
        if !is_branch {
            self.fit = fitting(alloc, book, table, marks, &self.all)?;
        }
        Ok(())
    }

    /// Keeps what a node found.
    pub fn keep(&mut self, alloc: Global, book: &Book, table: &CostTable) -> Result<(), Memory>
        requires table { IsTableFor book.now table.now }
        requires routes { AreSearchRoutes table.now book.now self.old }
        ensures { AreSearchRoutes table.now book.now self.new }
    {
        if self.all.count() > MOST_KEPT {
            self.all = Pool::new(alloc)?;
        }
        add_last(alloc, book, table, &self.fit, &mut self.all)
    }
}
