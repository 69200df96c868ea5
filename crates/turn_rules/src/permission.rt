//! Who may fly what.
//!
//! Each condition has a test of its own, so that a refusal can name the one that fails.
//! Types, tags and avoided airports are lists of at most 20 numbers, which are searched from the front.
//! The curfews come last, since they cost most (see the module `curfew`). With a table of them the cheap tests come first.

ghost use Rattle.std.specs.Prelude.{◌≡◌, ◌<◌, ◌↔◌, IsTrue};
ghost use Rattle.std.specs.List.{list_all};
ghost use Rattle.tail_book.specs.Numbers.{contains, is_none_or};
ghost use Rattle.tail_book.specs.Lookup.{activities, aircraft, types_of, kind_of, tags_had, tags_needed, avoided, from_port, to_port, preassigned};
ghost use Rattle.tail_book.specs.Curfew.{covers_type};
ghost use Rattle.tail_book.specs.Allowed.{IsAllowed, is_permitted};
ghost use Rattle.tail_book.specs.LegalTests.{is_allowed};
ghost use Rattle.turn_rules.specs.inside.CurfewTable.{AreCurfewsOf};

use crate::curfew::{covers_type, curfewed};
use crate::curfew_table::{CurfewTable, curfewed_by};
use tail_book::Book;
use tail_book::laws::allowed_decides;

/// Whether an activity may be flown by aircraft of this one's type.
fn takes_type(book: &Book, k: u32, a: u32) -> bool
    requires aircraft { k < aircraft book.now }
    requires activity { a < activities book.now }
    ensures { result ≡ covers_type (types_of book.now a) (kind_of book.now k) }
{
    covers_type(
        &book.activities[a as usize].types,
        book.tails[k as usize].kind,
    )
}

/// Whether a list has every tag that is needed.
fn covers_tags(had: &[u32], needed: &[u32]) -> bool
    ensures { result ≡ list_all (contains had.now) needed.now }
{
    needed.iter().all(|tag| had.contains(tag))
}

/// Whether an aircraft has every tag that an activity needs.
fn has_tags(book: &Book, k: u32, a: u32) -> bool
    requires aircraft { k < aircraft book.now }
    requires activity { a < activities book.now }
    ensures { result ≡ list_all (contains (tags_had book.now k)) (tags_needed book.now a) }
{
    covers_tags(
        &book.tails[k as usize].tags,
        &book.activities[a as usize].tags,
    )
}

/// Whether an aircraft avoids the airport where an activity starts.
fn avoids_start(book: &Book, k: u32, a: u32) -> bool
    requires aircraft { k < aircraft book.now }
    requires activity { a < activities book.now }
    ensures { result ≡ contains (avoided book.now k) (from_port book.now a) }
{
    book.tails[k as usize]
        .avoid
        .contains(&book.activities[a as usize].from)
}

/// Whether an aircraft avoids the airport where an activity ends.
fn avoids_end(book: &Book, k: u32, a: u32) -> bool
    requires aircraft { k < aircraft book.now }
    requires activity { a < activities book.now }
    ensures { result ≡ contains (avoided book.now k) (to_port book.now a) }
{
    book.tails[k as usize]
        .avoid
        .contains(&book.activities[a as usize].to)
}

/// Whether an activity is preassigned to nobody else.
fn is_free_for(book: &Book, k: u32, a: u32) -> bool
    requires aircraft { k < aircraft book.now }
    requires activity { a < activities book.now }
    ensures { result ≡ is_none_or (preassigned book.now a) k }
{
    match book.activities[a as usize].tail {
        None => true,
        Some(tail) => tail == k,
    }
}

/// Whether an aircraft may fly an activity, curfews aside.
#[tactic(auto, unfolding(tail_book::specs::Allowed::is_permitted))]
pub fn permitted(book: &Book, k: u32, a: u32) -> bool
    requires aircraft { k < aircraft book.now }
    requires activity { a < activities book.now }
    ensures { result ≡ is_permitted book.now k a }
{
    takes_type(book, k, a)
        && has_tags(book, k, a)
        && !avoids_start(book, k, a)
        && !avoids_end(book, k, a)
        && is_free_for(book, k, a)
}

/// Whether an aircraft may fly an activity.
#[tactic(auto, unfolding(tail_book::specs::LegalTests::is_allowed))]
pub fn allowed(book: &Book, k: u32, a: u32) -> bool
    requires aircraft { k < aircraft book.now }
    requires activity { a < activities book.now }
    ensures means { IsTrue result ↔ IsAllowed book.now k a }
    ensures tests { result ≡ is_allowed book.now k a }
{
    allowed_decides();
    permitted(book, k, a) && !curfewed(book, k, a)
}

/// Whether an aircraft may fly an activity, by the book's table of curfews.
pub fn allowed_by(book: &Book, curfews: &CurfewTable, k: u32, a: u32) -> bool
    requires curfews { AreCurfewsOf book.now curfews.now }
    requires aircraft { k < aircraft book.now }
    requires activity { a < activities book.now }
    ensures means { IsTrue result ↔ IsAllowed book.now k a }
    ensures tests { result ≡ is_allowed book.now k a }
{
    allowed_decides();
    is_free_for(book, k, a)
        && !curfewed_by(book, curfews, k, a)
        && takes_type(book, k, a)
        && !avoids_start(book, k, a)
        && !avoids_end(book, k, a)
        && has_tags(book, k, a)
}
