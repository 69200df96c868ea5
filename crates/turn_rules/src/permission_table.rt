//! Who may fly what, asked of the rules once.
//!
//! The curfews are found first, for each activity and type. Then each aircraft is asked about each activity, at most
//! 800,000 questions, which search lists of at most 20 numbers. A question of the table is one read.

ghost use Rattle.std.specs.Prelude.{◌≡◌, ◌<◌, ◌++◌, ◌↔◌, IfOk, IsTrue};
ghost use Rattle.std.specs.List.{flat_map, range_with_len};
ghost use Rattle.tail_book.specs.Lookup.{activities, aircraft};
ghost use Rattle.tail_book.specs.Link.{IsLink};
ghost use Rattle.tail_book.specs.LegalTests.{is_allowed, is_allowed_at, is_link};
ghost use Rattle.tail_book.specs.Place.{IsPlaceOf};
ghost use Rattle.turn_rules.specs.inside.FreeBefore.{IsFreeBefore};
ghost use Rattle.turn_rules.specs.inside.CurfewTable.{AreCurfewsOf};
ghost use Rattle.turn_rules.specs.inside.PermissionTable.{ArePermissionsOf, allowed_to};

use crate::connection::connected;
use crate::curfew_table::CurfewTable;
use crate::permission::allowed_by;
use std::alloc::Global;
use tail_book::laws::link_decides;
use tail_book::{Book, Memory, Place};

/// Whether each aircraft may fly each activity.
#[derive(Debug, Drop)]
pub struct PermissionTable {
    /// How many activities there are.
    pub n: usize,
    /// Whether aircraft `k` may fly activity `a`, at `k * n + a`.
    pub allowed: Vec<bool>,
}

impl PermissionTable {
    /// Who may fly what in a book.
    pub fn of(alloc: Global, book: &Book) -> Result<PermissionTable, Memory>
        ensures { IfOk result (ArePermissionsOf book.now) }
    {
        let n = book.activities.len();
        let allowed = all_rows(alloc, book)?;
        Ok(PermissionTable { n, allowed })
    }
}

// Adds whether an aircraft may fly each activity.
fn add_row(book: &Book, curfews: &CurfewTable, k: u32, rows: &mut Vec<bool>) -> Result<(), Memory>
    requires curfews { AreCurfewsOf book.now curfews.now }
    requires aircraft { k < aircraft book.now }
    ensures { IfOk result (λ _. rows.new.items ≡ rows.old.items ++ allowed_to book.now k) }
{
    for a in 0..book.activities.len() as u32 {
        rows.push(allowed_by(book, curfews, k, a))?;
    }
    Ok(())
}

// Whether each aircraft may fly each activity, the first aircraft's answers first.
fn all_rows(alloc: Global, book: &Book) -> Result<Vec<bool>, Memory>
    ensures { IfOk result (λ rows. rows.items ≡ flat_map (allowed_to book.now) (range_with_len 0 (aircraft book.now))) }
{
    let curfews = CurfewTable::of(alloc, book)?;
    let mut rows = Vec::with_capacity(alloc, book.activities.len() * book.tails.len())?;
    for k in 0..book.tails.len() as u32 {
        add_row(book, &curfews, k, &mut rows)?;
    }
    Ok(rows)
}

/// Whether an aircraft may fly an activity, by the book's table.
pub fn permits(book: &Book, permissions: &PermissionTable, k: u32, a: u32) -> bool
    requires permissions { ArePermissionsOf book.now permissions.now }
    requires aircraft { k < aircraft book.now }
    requires activity { a < activities book.now }
    ensures { result ≡ is_allowed book.now k a }
{
    permissions.allowed[k as usize * permissions.n + a as usize]
}

// Whether an aircraft may fly what it comes from; the carry-in asks nothing.
fn permits_at(book: &Book, permissions: &PermissionTable, k: u32, from: Place) -> bool
    requires permissions { ArePermissionsOf book.now permissions.now }
    requires aircraft { k < aircraft book.now }
    requires place { IsPlaceOf book.now from }
    ensures { result ≡ is_allowed_at book.now k from }
{
    match from {
        Place::Carry => true,
        Place::After(x) => permits(book, permissions, k, x),
    }
}

/// Whether an activity may come directly after a place of an aircraft, by the book's table of who may fly what.
#[tactic(auto, unfolding(tail_book::specs::LegalTests::is_link))]
pub fn link_by(book: &Book, permissions: &PermissionTable, k: u32, from: Place, b: u32) -> bool
    requires permissions { ArePermissionsOf book.now permissions.now }
    requires aircraft { k < aircraft book.now }
    requires place { IsPlaceOf book.now from }
    requires activity { b < activities book.now }
    ensures means { IsTrue result ↔ IsLink book.now k from b }
    ensures tests { result ≡ is_link book.now k from b }
    ensures forward { IsTrue result → IsFreeBefore book.now k from b }
{
    link_decides();
    connected(book, k, from, b)
        && permits_at(book, permissions, k, from)
        && permits(book, permissions, k, b)
}
