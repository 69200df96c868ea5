//! Lightest routes, counters aside: for each activity the least weight from it to an end, and what comes next on the way there.
//!
//! A link leads to a larger number, so one walk over the links from the last activity back finds the lightest route of an
//! aircraft. What connections cost is written once, since it is asked for at each walk. Nothing here is promised: a route that
//! is not the lightest, or none, only makes duals that are worth less.

ghost use Rattle.std.specs.Prelude.{◌<◌, All};
ghost use Rattle.tail_book.specs.Lookup.{activities, aircraft};
ghost use Rattle.tail_book.specs.Place.{IsPlaceOf};
ghost use Rattle.tail_book.specs.inside.Sound.{IsBook};
ghost use Rattle.node_leaves.specs.inside.Field.{IsField};

use branch_marks::Marks;
use connection_net::Net;
use connection_net::laws::{rows_for_each, rows_rise};
use std::alloc::Global;
use tail_book::laws::{every_book_is_sound, rising_routes_are_below};
use tail_book::{Book, COST_UNIT, CostTable, Memory, Place};

// A weight where no end can be reached.
const FAR: i64 = 1 << 61;

/// What routes are looked for in. It only borrows these.
#[derive(Clone, Copy)]
pub struct Field<'a> {
    pub book: &'a Book,
    pub table: &'a CostTable,
    pub net: &'a Net,
    pub marks: &'a Marks,
}

/// The book of a field keeps what all do.
pub fn every_field_is_sound(field: &Field<'_>)
    ensures { IsBook field.now.book.now }
{
    every_book_is_sound(field.book);
}

// What a cost comes to, in thousandths of a cost unit.
fn weight_of(cost: u64) -> i64 {
    COST_UNIT.saturating_mul(cost).min(1 << 61) as i64
}

/// The number at a place of a list, and 0 where the list has no such place.
pub fn at(list: &[i64], place: usize) -> i64 {
    list.get(place).copied().unwrap_or(0)
}

/// Writes a number at a place of a list, if it has that place.
pub fn put(list: &mut [i64], place: usize, value: i64) {
    if let Some(number) = list.get_mut(place) {
        *number = value;
    }
}

// What the connection between two activities weighs.
fn connection_weight(field: &Field<'_>, x: u32, b: u32) -> i64 {
    let (book, table) = (field.book, field.table);
    let (Some(from), Some(to)) = (
        book.activities.get(x as usize),
        book.activities.get(b as usize),
    ) else {
        return 0;
    };
    weight_of(table.connection_cost(to.start.saturating_sub(from.end)))
}

/// What an activity weighs for an aircraft, its dual aside.
pub fn activity_weight(field: &Field<'_>, k: u32, a: u32) -> i64
    requires field { IsField field.now }
    requires aircraft { k < aircraft field.now.book.now }
    requires activity { a < activities field.now.book.now }
{
    let table = field.table;
    weight_of(table.activity_cost(k, a))
}

// The activities that may come next after an activity.
fn successors<'a>(field: &'a Field<'_>, x: u32) -> &'a [u32]
    requires field { IsField field.now }
    requires activity { x < activities field.now.book.now }
    ensures { All (λ b. b < activities field.now.book.now) result.now }
{
    rows_for_each();
    rows_rise();
    rising_routes_are_below();
    let net = field.net;
    net.successors(x)
}

// The activities that an aircraft may fly first.
fn heads<'a>(field: &'a Field<'_>, k: u32) -> &'a [u32]
    requires field { IsField field.now }
    requires aircraft { k < aircraft field.now.book.now }
    ensures { All (λ b. b < activities field.now.book.now) result.now }
{
    rows_for_each();
    rows_rise();
    rising_routes_are_below();
    let net = field.net;
    net.heads(k)
}

// What an aircraft has behind it where it ends its route at a place.
fn ended(field: &Field<'_>, k: u32, from: Place) -> i64
    requires field { IsField field.now }
    requires aircraft { k < aircraft field.now.book.now }
    requires place { IsPlaceOf field.now.book.now from }
{
    let (book, marks) = (field.book, field.marks);
    if marks.may_end(book, k, from) { 0 } else { FAR }
}

// What the connections of all links weigh.
#[derive(Drop)]
struct Connections {
    // link after link, by their first activities; none where connections cost nothing
    weights: Vec<i64>,
    // where those of each activity begin
    starts: Vec<usize>,
}

// Writes what the connections behind an activity weigh.
fn push_weights(field: &Field<'_>, x: u32, weights: &mut Vec<i64>) -> Result<(), Memory>
    requires field { IsField field.now }
    requires activity { x < activities field.now.book.now }
{
    for b in successors(field, x) {
        weights.push(connection_weight(field, x, *b))?;
    }
    Ok(())
}

impl Connections {
    fn new(alloc: Global, field: &Field<'_>) -> Result<Connections, Memory>
        requires { IsField field.now }
    {
        every_field_is_sound(field);
        let (book, table) = (field.book, field.table);
        let (mut weights, mut starts) = (Vec::new(alloc), Vec::new(alloc));
        if !table.bands.is_empty() {
            for x in 0..book.activities.len() as u32 {
                starts.push(weights.len())?;
                push_weights(field, x, &mut weights)?;
            }
        }
        Ok(Connections { weights, starts })
    }

    // What the connections behind an activity weigh, for each of so many successors; none where connections cost nothing.
    fn behind(&self, x: u32, successors: usize) -> &[i64] {
        let start = self.starts.get(x as usize).copied().unwrap_or(0);
        let end = start.saturating_add(successors);
        if end <= self.weights.len() {
            &self.weights[start..end]
        } else {
            &[]
        }
    }
}

/// Room for the lightest routes of aircraft, one after another.
#[derive(Drop)]
pub struct Lightest {
    connections: Connections,
    // what each activity adds to a route, and the least weight from it to an end
    added: Vec<i64>,
    behind: Vec<i64>,
    // what comes next on the way to that end
    next: Vec<Option<u32>>,
}

impl Lightest {
    /// Room over a book.
    pub fn new(alloc: Global, field: &Field<'_>) -> Result<Lightest, Memory>
        requires { IsField field.now }
    {
        let book = field.book;
        let n = book.activities.len();
        Ok(Lightest {
            connections: Connections::new(alloc, field)?,
            added: vec![in alloc; 0i64; n]?,
            behind: vec![in alloc; FAR; n]?,
            next: vec![in alloc; None; n]?,
        })
    }

    /// Writes what an activity adds to a route.
    pub fn set_added(&mut self, a: usize, weight: i64) {
        put(&mut self.added, a, weight);
    }

    /// Raises what an activity adds to a route.
    pub fn raise_added(&mut self, a: usize, weight: i64) {
        let raised = at(&self.added, a).saturating_add(weight);
        put(&mut self.added, a, raised);
    }

    /// The activity that comes next after an activity on the way to an end.
    pub fn after(&self, a: u32) -> Option<u32> {
        self.next.get(a as usize).copied().unwrap_or(None)
    }

    // The least weight from an activity to an end.
    fn weight(&self, b: u32) -> i64 {
        self.behind.get(b as usize).copied().unwrap_or(FAR)
    }

    // The least weight behind an activity, where that of each later one is known, and what comes next with it. A connection
    // never weighs less than nothing, so what it weighs is looked up only where the way would be lighter without it.
    fn least_behind(&self, field: &Field<'_>, k: u32, x: u32) -> (i64, Option<u32>)
        requires field { IsField field.now }
        requires aircraft { k < aircraft field.now.book.now }
        requires activity { x < activities field.now.book.now }
    {
        let (book, marks) = (field.book, field.marks);
        let from = Place::After(x);
        let (mut least, mut best) = (ended(field, k, from), None);
        let next = successors(field, x);
        let connections = self.connections.behind(x, next.len());
        for i in 0..next.len() {
            let rest = self.weight(next[i]);
            if rest < least {
                let weight = rest.saturating_add(at(connections, i));
                if weight < least && marks.usable(book, k, from, next[i]) {
                    least = weight;
                    best = Some(next[i]);
                }
            }
        }
        (least, best)
    }

    // Writes the least weight from an activity to an end, and what comes next on the way there.
    fn note(&mut self, x: u32, weight: i64, next: Option<u32>) {
        put(&mut self.behind, x as usize, weight);
        if let Some(place) = self.next.get_mut(x as usize) {
            *place = next;
        }
    }

    // Finds the least weight from an activity to an end, where that of each later one is known.
    fn step_back(&mut self, field: &Field<'_>, k: u32, x: u32)
        requires field { IsField field.now }
        requires aircraft { k < aircraft field.now.book.now }
        requires activity { x < activities field.now.book.now }
    {
        let (book, marks) = (field.book, field.marks);
        if !marks.alive(book, k, x) {
            self.note(x, FAR, None);
            return;
        }
        let (least, next) = self.least_behind(field, k, x);
        let weight = if least < FAR / 2 {
            least.saturating_add(at(&self.added, x as usize))
        } else {
            FAR
        };
        self.note(x, weight, next);
    }

    // The first activity of the lightest route of an aircraft, if it flies any.
    fn head(&self, field: &Field<'_>, k: u32) -> Option<u32>
        requires field { IsField field.now }
        requires aircraft { k < aircraft field.now.book.now }
    {
        let (book, marks) = (field.book, field.marks);
        let (mut least, mut head) = (ended(field, k, Place::Carry), None);
        let first = heads(field, k);
        for i in 0..first.len() {
            let weight = self.weight(first[i]);
            if weight < least && marks.usable(book, k, Place::Carry, first[i]) {
                least = weight;
                head = Some(first[i]);
            }
        }
        head
    }

    /// Finds the lightest route of an aircraft, and answers with what it flies first, if anything.
    pub fn find(&mut self, field: &Field<'_>, k: u32) -> Option<u32>
        requires field { IsField field.now }
        requires aircraft { k < aircraft field.now.book.now }
    {
        every_field_is_sound(field);
        let book = field.book;
        let n = book.activities.len();
        for done in 0..n {
            let x = n - 1 - done;
            self.step_back(field, k, x as u32);
        }
        self.head(field, k)
    }
}
