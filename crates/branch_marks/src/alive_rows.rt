//! Who is alive at each activity: the aircraft that may fly it by the rules and by each fact.
//!
//! A row for each activity, a bit for each aircraft: at most four words a row. Permission is asked once, when the table
//! is made. A Bar clears a bit, and a Must leaves its aircraft's alone, so that a question is one read. When a fact is taken
//! back, those that it may have kept away are alive again where permission, Bars and carriers leave them free.

ghost use Rattle.std.specs.Prelude.{◌≡◌, ◌<◌, ◌≤◌, ◌&&◌, ◌||◌, length, nat_eq, nat_lt, IfOk};
ghost use Rattle.tail_book.specs.Lookup.{activities, aircraft};
ghost use Rattle.tail_book.specs.LegalTests.{is_allowed};
ghost use Rattle.turn_rules.specs.inside.PermissionTable.{ArePermissionsOf};
ghost use Rattle.branch_marks.specs.inside.BitRows.{AreChanged};
ghost use Rattle.branch_marks.specs.Facts.{IsFactOf};
ghost use Rattle.branch_marks.specs.MarkTests.{lets_fly};
ghost use Rattle.branch_marks.specs.inside.MarkTables.{IsAllowedTable, IsFactWithin, is_about, is_free};

use crate::Fact;
use crate::bit_rows::BitRows;
use crate::named::{Named, named_at};
use std::alloc::Global;
use tail_book::laws::every_book_is_sound;
use tail_book::{Book, Memory};
use turn_rules::{PermissionTable, permits};

/// Who may fly what by the rules alone.
pub fn allowed_rows(alloc: Global, book: &Book) -> Result<BitRows, Memory>
    ensures { IfOk result (IsAllowedTable book.now) }
{
    every_book_is_sound(book);
    let permissions = PermissionTable::of(alloc, book)?;
    let mut allowed = BitRows::new(alloc, book.activities.len(), book.tails.len())?;
    put_all(book, &permissions, &mut allowed);
    Ok(allowed)
}

// Adds who may fly each activity.
fn put_all(book: &Book, permissions: &PermissionTable, alive: &mut BitRows)
    requires permissions { ArePermissionsOf book.now permissions.now }
    requires rows { alive.old.rows ≡ activities book.now }
    requires columns { alive.old.columns ≡ aircraft book.now }
    ensures { AreChanged (λ a k had. had || (nat_lt a (activities book.now) && is_allowed book.now k a)) alive.old alive.new }
{
    for a in 0..book.activities.len() as u32 {
        put_row(book, permissions, a, alive);
    }
}

// Adds who may fly an activity.
fn put_row(book: &Book, permissions: &PermissionTable, a: u32, alive: &mut BitRows)
    requires permissions { ArePermissionsOf book.now permissions.now }
    requires activity { a < activities book.now }
    requires rows { alive.old.rows ≡ activities book.now }
    requires columns { alive.old.columns ≡ aircraft book.now }
    ensures { AreChanged (λ c k had. had || (nat_eq a c && is_allowed book.now k c)) alive.old alive.new }
{
    for k in 0..book.tails.len() as u32 {
        put_if(alive, a, k, permits(book, permissions, k, a));
    }
}

// Adds an aircraft at an activity where it may fly it.
fn put_if(alive: &mut BitRows, a: u32, k: u32, may: bool)
    requires row { a < alive.old.rows }
    requires column { k < alive.old.columns }
    ensures { AreChanged (λ c j had. had || ((nat_eq c a && nat_eq j k) && may)) alive.old alive.new }
{
    if may {
        alive.put(a as usize, k as usize);
    }
}

/// Notes a fact: who is still alive.
pub fn note_alive(book: &Book, alive: &mut BitRows, fact: Fact)
    requires fact { IsFactOf book.now fact }
    requires rows { alive.old.rows ≡ activities book.now }
    requires columns { alive.old.columns ≡ aircraft book.now }
    ensures { AreChanged (λ a k had. had && lets_fly k a fact) alive.old alive.new }
{
    match fact {
        Fact::Bar(k, a) => alive.remove(a as usize, k as usize),
        Fact::Must(k, a) => alive.keep_only(a as usize, k as usize),
        Fact::Cut(_, _) | Fact::Tie(_, _) => (),
    }
}

// Whether an aircraft is allowed at an activity, not barred from it, and no other is its carrier.
fn is_free(allowed: &BitRows, bars: &BitRows, carriers: &[Named], a: u32, k: u32) -> bool
    requires allowed_row { a < allowed.now.rows }
    requires allowed_column { k < allowed.now.columns }
    requires bar_row { k < bars.now.rows }
    requires bar_column { a < bars.now.columns }
    requires carrier { a < length carriers.now }
    ensures { result ≡ is_free allowed.now bars.now carriers.now a k }
{
    allowed.has(a as usize, k as usize)
        && (!bars.has(k as usize, a as usize) && named_at(carriers, a).lets(k))
}

// Adds an aircraft at an activity where it is free.
fn put_if_free(
    alive: &mut BitRows,
    allowed: &BitRows,
    bars: &BitRows,
    carriers: &[Named],
    a: u32,
    k: u32,
)
    requires row { a < alive.old.rows }
    requires column { k < alive.old.columns }
    requires allowed_rows { allowed.now.rows ≡ alive.old.rows }
    requires allowed_columns { allowed.now.columns ≡ alive.old.columns }
    requires bar_rows { bars.now.rows ≡ alive.old.columns }
    requires bar_columns { bars.now.columns ≡ alive.old.rows }
    requires carriers { length carriers.now ≡ alive.old.rows }
    ensures { AreChanged (λ c j had. had || ((nat_eq j k && nat_eq c a) && is_free allowed.now bars.now carriers.now c j)) alive.old alive.new }
{
    let may = is_free(allowed, bars, carriers, a, k);
    put_if(alive, a, k, may);
}

// Adds each aircraft at an activity where it is free.
fn put_all_free(
    alive: &mut BitRows,
    allowed: &BitRows,
    bars: &BitRows,
    carriers: &[Named],
    m: usize,
    a: u32,
)
    requires row { a < alive.old.rows }
    requires aircraft { m ≡ alive.old.columns }
    requires few { m ≤ 4096 }
    requires allowed_rows { allowed.now.rows ≡ alive.old.rows }
    requires allowed_columns { allowed.now.columns ≡ alive.old.columns }
    requires bar_rows { bars.now.rows ≡ alive.old.columns }
    requires bar_columns { bars.now.columns ≡ alive.old.rows }
    requires carriers { length carriers.now ≡ alive.old.rows }
    ensures { AreChanged (λ c j had. had || (nat_eq c a && is_free allowed.now bars.now carriers.now c j)) alive.old alive.new }
{
    for k in 0..m as u32 {
        put_if_free(alive, allowed, bars, carriers, a, k);
    }
}

/// Takes a fact back that was the last, of `m` aircraft: who is alive again. Bars and carriers are those of the facts that are
/// left.
pub fn undo_alive(
    alive: &mut BitRows,
    allowed: &BitRows,
    bars: &BitRows,
    carriers: &[Named],
    m: usize,
    fact: Fact,
)
    requires fact { IsFactWithin alive.old.columns alive.old.rows fact }
    requires aircraft { m ≡ alive.old.columns }
    requires few { m ≤ 4096 }
    requires allowed_rows { allowed.now.rows ≡ alive.old.rows }
    requires allowed_columns { allowed.now.columns ≡ alive.old.columns }
    requires bar_rows { bars.now.rows ≡ alive.old.columns }
    requires bar_columns { bars.now.columns ≡ alive.old.rows }
    requires carriers { length carriers.now ≡ alive.old.rows }
    ensures { AreChanged (λ a k had. had || (is_about k a fact && is_free allowed.now bars.now carriers.now a k)) alive.old alive.new }
{
    match fact {
        Fact::Bar(k, a) => put_if_free(alive, allowed, bars, carriers, a, k),
        Fact::Must(_, a) => put_all_free(alive, allowed, bars, carriers, m, a),
        Fact::Cut(_, _) | Fact::Tie(_, _) => (),
    }
}
