//! The network: for each activity those that may come directly after it and those before it, and for each aircraft
//! those that it may fly first.
//!
//! A link leads from an airport to an activity that starts there, so for each activity those of one airport are looked
//! at, by a few reads each. With 4,000 activities these are 16 million pairs at the very most, where there is one
//! airport, and each pair is looked at from both its ends. The carry-ins ask at most 800,000 questions of the table of
//! who may fly what.

ghost use Rattle.std.specs.Prelude.{◌≡◌, ◌<◌, All, IfOk, length};
ghost use Rattle.std.specs.List.{filter};
ghost use Rattle.tail_book.specs.Lookup.{activities, aircraft};
ghost use Rattle.turn_rules.specs.inside.PermissionTable.{ArePermissionsOf};
ghost use Rattle.connection_net.specs.inside.LinkTable.{IsLinkTableOf, all_departures_of, all_arrivals_of};
ghost use Rattle.tail_book.specs.LegalTests.{is_link};
ghost use Rattle.connection_net.specs.Net.{is_linked, net_of, successors_in, predecessors_in, heads_in, successors_of, predecessors_of, heads_of};

use crate::airports::{arrivals, arriving, departing, departures, end_port, start_port};
use crate::link_table::{LinkTable, linked};
use crate::rows::{Rows, push_where};
use std::alloc::Global;
use std::marker::Model;
use tail_book::{Book, Memory, Place};
use turn_rules::{PermissionTable, link_by, port};

/// The connection network of a book, 8 bytes a link. Contracts see its rows as lists.
#[derive(Debug, Drop)]
pub struct Net {
    successors: Rows,
    predecessors: Rows,
    heads: Rows,
}

impl Model for Net {
    ghost use Rattle.connection_net.specs.Seen.{NetSeen};

    ghost Value = { NetSeen };

    ghost view = { λ n. record { successors = n.successors; predecessors = n.predecessors; heads = n.heads } };
}

impl Net {
    /// The network of a book.
    pub fn new(alloc: Global, book: &Book) -> Result<Net, Memory>
        ensures { IfOk result (λ net. net ≡ net_of book.now) }
    {
        let permissions = PermissionTable::of(alloc, book)?;
        let table = LinkTable::of(alloc, book, &permissions)?;
        let departures = departures(alloc, book)?;
        let heads = all_heads(alloc, book, &permissions, &departures)?;
        let successors = all_successors(alloc, book, &table, &departures)?;
        let arrivals = arrivals(alloc, book)?;
        let predecessors = all_predecessors(alloc, book, &table, &arrivals)?;
        Ok(Net {
            successors,
            predecessors,
            heads,
        })
    }

    /// The activities that may come directly after an activity, for at least one aircraft.
    pub fn successors(&self, a: u32) -> &[u32]
        requires { a < length self.now.successors }
        ensures { result.now ≡ successors_in self.now a }
    {
        self.successors.row(a as usize)
    }

    /// The activities that an activity may come directly after, for at least one aircraft.
    pub fn predecessors(&self, b: u32) -> &[u32]
        requires { b < length self.now.predecessors }
        ensures { result.now ≡ predecessors_in self.now b }
    {
        self.predecessors.row(b as usize)
    }

    /// The activities that an aircraft may fly first.
    pub fn heads(&self, k: u32) -> &[u32]
        requires { k < length self.now.heads }
        ensures { result.now ≡ heads_in self.now k }
    {
        self.heads.row(k as usize)
    }
}

// Writes those of a list that some aircraft may fly directly after an activity.
fn put_after(
    book: &Book,
    table: &LinkTable,
    a: u32,
    list: &[u32],
    row: &mut Vec<u32>,
) -> Result<(), Memory>
    requires table { IsLinkTableOf book.now table.now }
    requires activity { a < activities book.now }
    requires list { All (λ b. b < activities book.now) list.now }
    ensures { IfOk result (λ _. row.new.items ≡ filter (is_linked book.now a) list.now) }
{
    row.clear();
    for b in list {
        let follows = linked(book, table, a, *b);
        push_where(row, follows, *b)?;
    }
    Ok(())
}

// Writes those of a list that some aircraft may fly directly before an activity.
fn put_before(
    book: &Book,
    table: &LinkTable,
    b: u32,
    list: &[u32],
    row: &mut Vec<u32>,
) -> Result<(), Memory>
    requires table { IsLinkTableOf book.now table.now }
    requires activity { b < activities book.now }
    requires list { All (λ a. a < activities book.now) list.now }
    ensures { IfOk result (λ _. row.new.items ≡ filter (λ a. is_linked book.now a b) list.now) }
{
    row.clear();
    for a in list {
        let leads = linked(book, table, *a, b);
        push_where(row, leads, *a)?;
    }
    Ok(())
}

// Writes those of a list that an aircraft may fly first.
fn put_first(
    book: &Book,
    permissions: &PermissionTable,
    k: u32,
    list: &[u32],
    row: &mut Vec<u32>,
) -> Result<(), Memory>
    requires permissions { ArePermissionsOf book.now permissions.now }
    requires aircraft { k < aircraft book.now }
    requires list { All (λ b. b < activities book.now) list.now }
    ensures { IfOk result (λ _. row.new.items ≡ filter (is_link book.now k Place.Carry) list.now) }
{
    row.clear();
    for b in list {
        let begins = link_by(book, permissions, k, Place::Carry, *b);
        push_where(row, begins, *b)?;
    }
    Ok(())
}

// Writes the successors of an activity: they are among those that start where it ends.
fn put_successors(
    book: &Book,
    table: &LinkTable,
    departures: &Rows,
    a: u32,
    row: &mut Vec<u32>,
) -> Result<(), Memory>
    requires table { IsLinkTableOf book.now table.now }
    requires departures { departures.now ≡ all_departures_of book.now }
    requires activity { a < activities book.now }
    ensures { IfOk result (λ _. row.new.items ≡ successors_of book.now a) }
{
    let list = departing(book, departures, end_port(book, a));
    put_after(book, table, a, list, row)
}

// Writes the predecessors of an activity: they are among those that end where it starts.
fn put_predecessors(
    book: &Book,
    table: &LinkTable,
    arrivals: &Rows,
    b: u32,
    row: &mut Vec<u32>,
) -> Result<(), Memory>
    requires table { IsLinkTableOf book.now table.now }
    requires arrivals { arrivals.now ≡ all_arrivals_of book.now }
    requires activity { b < activities book.now }
    ensures { IfOk result (λ _. row.new.items ≡ predecessors_of book.now b) }
{
    let list = arriving(book, arrivals, start_port(book, b));
    put_before(book, table, b, list, row)
}

// Writes the heads of an aircraft: they are among those that start where it comes in.
fn put_heads(
    book: &Book,
    permissions: &PermissionTable,
    departures: &Rows,
    k: u32,
    row: &mut Vec<u32>,
) -> Result<(), Memory>
    requires permissions { ArePermissionsOf book.now permissions.now }
    requires departures { departures.now ≡ all_departures_of book.now }
    requires aircraft { k < aircraft book.now }
    ensures { IfOk result (λ _. row.new.items ≡ heads_of book.now k) }
{
    let list = departing(book, departures, port(book, k, Place::Carry));
    put_first(book, permissions, k, list, row)
}

// The successors of every activity.
fn all_successors(
    alloc: Global,
    book: &Book,
    table: &LinkTable,
    departures: &Rows,
) -> Result<Rows, Memory>
    requires table { IsLinkTableOf book.now table.now }
    requires departures { departures.now ≡ all_departures_of book.now }
    ensures { IfOk result (λ rows. rows ≡ (net_of book.now).successors) }
{
    let (mut rows, mut row) = (Rows::new(alloc)?, Vec::new(alloc));
    for a in 0..book.activities.len() as u32 {
        put_successors(book, table, departures, a, &mut row)?;
        rows.push(&row)?;
    }
    Ok(rows)
}

// The predecessors of every activity.
fn all_predecessors(
    alloc: Global,
    book: &Book,
    table: &LinkTable,
    arrivals: &Rows,
) -> Result<Rows, Memory>
    requires table { IsLinkTableOf book.now table.now }
    requires arrivals { arrivals.now ≡ all_arrivals_of book.now }
    ensures { IfOk result (λ rows. rows ≡ (net_of book.now).predecessors) }
{
    let (mut rows, mut row) = (Rows::new(alloc)?, Vec::new(alloc));
    for b in 0..book.activities.len() as u32 {
        put_predecessors(book, table, arrivals, b, &mut row)?;
        rows.push(&row)?;
    }
    Ok(rows)
}

// The heads of every aircraft.
fn all_heads(
    alloc: Global,
    book: &Book,
    permissions: &PermissionTable,
    departures: &Rows,
) -> Result<Rows, Memory>
    requires permissions { ArePermissionsOf book.now permissions.now }
    requires departures { departures.now ≡ all_departures_of book.now }
    ensures { IfOk result (λ rows. rows ≡ (net_of book.now).heads) }
{
    let (mut rows, mut row) = (Rows::new(alloc)?, Vec::new(alloc));
    for k in 0..book.tails.len() as u32 {
        put_heads(book, permissions, departures, k, &mut row)?;
        rows.push(&row)?;
    }
    Ok(rows)
}
