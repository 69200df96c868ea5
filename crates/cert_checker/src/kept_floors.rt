//! The floors of aircraft, kept from step to step.
//!
//! A Cut asks for those of each aircraft that may use its link, and most steps of a certificate may be Cuts: so there is a row for
//! each aircraft, within a bound of bytes. Every fact but a Tie closes ways only to activities from the last one on that it names,
//! and what comes to an activity comes from smaller numbers: so all floors below it stay, and the others are made again once they
//! are asked for.

ghost use Rattle.std.specs.Prelude.{◌≡◌, ◌<◌, ◌≤◌, ◌++◌, ◌∷◌, [], ℕ, List, IfOk, length};
ghost use Rattle.tail_book.specs.Lookup.{activities, aircraft};
ghost use Rattle.tail_book.specs.Seen.{BookSeen};
ghost use Rattle.branch_marks.specs.declared.fact.Fact.{Fact as MarkFact};
ghost use Rattle.branch_marks.specs.inside.MarkTables.{AreMarksOf};
ghost use Rattle.floor_rows.specs.inside.FloorRow.{floor_in, IsRowOf};
ghost use Rattle.floor_rows.specs.inside.LeastOver.{floor_of};
ghost use Rattle.cert_checker.specs.inside.KeptFloors.{AreAllUnder, AreFloorsUnder, AreLeftUnder, LeavesBelow};
ghost use Rattle.cert_checker.specs.inside.Means.{AreMeansOf};

use crate::laws::floors_below_stay;
use crate::means::Means;
use branch_marks::{Fact, Marks};
use floor_rows::{FloorRow, put_floor};
use std::alloc::Global;
use tail_book::laws::every_book_is_sound;
use tail_book::{Book, Memory};

/// The floors of an aircraft at the activities below a number.
#[derive(Drop)]
pub struct KeptFloors {
    pub row: FloorRow,
    pub k: u32,
    pub right: u32,
}

// Up to which number, this or a smaller one, a fact leaves an aircraft its floors.
fn left_by(fact: Fact, k: u32, right: u32) -> u32
    ensures less { result ≤ right }
    ensures leaves { LeavesBelow k result fact }
{
    match fact {
        Fact::Bar(j, a) => { if j == k { right.min(a) } else { right } }
        Fact::Must(_, a) => right.min(a),
        Fact::Cut(_, b) => right.min(b),
        Fact::Tie(_, _) => 0,
    }
}

// Makes the floors of an aircraft from one activity on, where those before it are made.
fn put_from(
    book: &Book,
    means: &Means,
    marks: &Marks,
    k: u32,
    from: u32,
    n: u32,
    row: &mut FloorRow,
    values: &mut [i64],
)
    requires means { AreMeansOf book.now means.now }
    requires marks { AreMarksOf book.now marks.now }
    requires aircraft { k < aircraft book.now }
    requires activities { n ≤ activities book.now }
    requires order { from ≤ n }
    requires row { IsRowOf book.now row.old }
    requires before { (a : ℕ) → a < from → floor_in row.old a ≡ floor_of book.now marks.now.facts k a }
    requires width { length values.old ≡ length book.now.rules.counters }
    ensures row { IsRowOf book.now row.new }
    ensures floors { (a : ℕ) → a < n → floor_in row.new a ≡ floor_of book.now marks.now.facts k a }
{
    for b in from..n {
        put_floor(book, &means.net, &means.steps, marks, k, b, row, values);
    }
}

impl KeptFloors {
    /// Room for the floors of an aircraft of the book, and none of them.
    pub fn new(alloc: Global, book: &Book) -> Result<KeptFloors, Memory>
        ensures { IfOk result (λ floors. (marks : List MarkFact) → AreFloorsUnder book.now marks floors) }
    {
        every_book_is_sound(book);
        let row = FloorRow::new(alloc, book.activities.len(), book.rules.counters.len())?;
        Ok(KeptFloors {
            row,
            k: 0,
            right: 0,
        })
    }

    /// Gives all floors up, whatever the marks are next.
    pub fn clear(&mut self)
        ensures { (book : BookSeen) (old new : List MarkFact) → AreFloorsUnder book old self.old → AreFloorsUnder book new self.new }
    {
        self.right = 0;
    }

    /// Gives up what a further fact may change.
    pub fn give_up(&mut self, fact: Fact)
        ensures { (book : BookSeen) (marks : List MarkFact) → AreFloorsUnder book marks self.old → AreFloorsUnder book (marks ++ fact ∷ []) self.new }
    {
        floors_below_stay();
        self.right = left_by(fact, self.k, self.right);
    }

    // Takes up an aircraft, which has no floors yet unless it was the last one.
    fn take_up(&mut self, k: u32)
        ensures floors { (book : BookSeen) (marks : List MarkFact) → AreFloorsUnder book marks self.old → AreFloorsUnder book marks self.new }
        ensures aircraft { self.new.k ≡ k }
    {
        if self.k == k {
            return;
        }
        self.k = k;
        self.right = 0;
    }

    /// Makes the floors of an aircraft at the activities below a number, where they are not kept.
    pub fn put(
        &mut self,
        book: &Book,
        means: &Means,
        marks: &Marks,
        k: u32,
        n: u32,
        values: &mut [i64],
    )
        requires means { AreMeansOf book.now means.now }
        requires marks { AreMarksOf book.now marks.now }
        requires aircraft { k < aircraft book.now }
        requires activities { n ≤ activities book.now }
        requires kept { AreFloorsUnder book.now marks.now.facts self.old }
        requires width { length values.old ≡ length book.now.rules.counters }
        ensures kept { AreFloorsUnder book.now marks.now.facts self.new }
        ensures floors { (a : ℕ) → a < n → floor_in self.new.row a ≡ floor_of book.now marks.now.facts k a }
    {
        self.take_up(k);
        if n <= self.right {
            return;
        }
        put_from(book, means, marks, k, self.right, n, &mut self.row, values);
        self.right = n;
    }
}

/// Rows for the floors of the aircraft of a book: one for each, within a bound of bytes.
#[derive(Drop)]
pub struct KeptRows {
    pub rows: Vec<KeptFloors>,
}

/// The most bytes of floors that are kept.
const ROOM: usize = 4_194_304;

// For how many aircraft floors are kept: for each, or for as many as there is room for.
fn row_count(book: &Book) -> usize
    ensures { 0 < result }
{
    every_book_is_sound(book);
    let bytes = book.activities.len() * (8 * book.rules.counters.len() + 1);
    let rows = ROOM / bytes.max(1);
    rows.min(book.tails.len()).max(1)
}

// So many rows, and no floors.
fn new_rows(alloc: Global, book: &Book) -> Result<Vec<KeptFloors>, Memory>
    ensures { IfOk result (λ rows. (marks : List MarkFact) → AreAllUnder book.now marks rows.items) }
{
    let mut rows = Vec::new(alloc);
    for _i in 0..row_count(book) {
        rows.push(KeptFloors::new(alloc, book)?)?;
    }
    Ok(rows)
}

impl KeptRows {
    /// No floors of the aircraft of the book yet.
    pub fn new(alloc: Global, book: &Book) -> Result<KeptRows, Memory>
        ensures { IfOk result (λ kept. (marks : List MarkFact) → AreAllUnder book.now marks kept.rows.items) }
    {
        let rows = new_rows(alloc, book)?;
        Ok(KeptRows { rows })
    }

    /// Gives all floors up, whatever the marks are next.
    pub fn clear(&mut self)
        ensures { (book : BookSeen) (old new : List MarkFact) → AreAllUnder book old self.old.rows.items → AreAllUnder book new self.new.rows.items }
    {
        for i in 0..self.rows.len() {
            self.rows[i].clear();
        }
    }

    /// Gives up what a further fact may change.
    pub fn give_up(&mut self, fact: Fact)
        ensures { AreLeftUnder fact self.old.rows.items self.new.rows.items }
    {
        for i in 0..self.rows.len() {
            self.rows[i].give_up(fact);
        }
    }

    /// The number of the row of an aircraft. Where there are not enough, the last row is that of all the others.
    pub fn row_of(&self, k: u32) -> usize
        requires { 0 < length self.now.rows.items }
        ensures { result < length self.now.rows.items }
    {
        (k as usize).min(self.rows.len() - 1)
    }
}
