//! Who may fly what, asked of a book and of its table. The book's rules serve a single question; the table is made
//! once, and serves many with one read for each.

ghost use Rattle.std.specs.Prelude.{◌≡◌, ◌↔◌, ◌<◌, ◌++◌, [], ◌∷◌, ℕ, if◌then◌else◌, Contains, IfOk, IsTrue, OnOk};
ghost use Rattle.std.specs.List.Sorted.{IsStrictlyIncreasing};
ghost use Rattle.tail_book.specs.Allowed.{IsAllowed};
ghost use Rattle.tail_book.specs.Lookup.{activities, aircraft};
ghost use Rattle.turn_rules.specs.inside.PermissionTable.{ArePermissionsOf};

use std::alloc::Global;
use tail_book::{Book, Memory, laws};
use turn_rules::{PermissionTable, allowed, permits};

/// Whether two aircraft may take over an activity of each other, times and places aside: `k` then flies `b`, and `j`
/// flies `a`. The rules are asked themselves, which serves a single question.
pub fn may_swap(book: &Book, k: u32, a: u32, j: u32, b: u32) -> bool
    requires first { k < aircraft book.now }
    requires its_activity { a < activities book.now }
    requires second { j < aircraft book.now }
    requires other_activity { b < activities book.now }
    ensures { IsTrue result ↔ (IsAllowed book.now k b × IsAllowed book.now j a) }
{
    allowed(book, k, b) && allowed(book, j, a)
}

fn aircraft_of(book: &Book) -> u32
    ensures { result ≡ aircraft book.now }
{
    laws::every_book_is_sound(book);
    book.tails.len() as u32
}

// Adds an aircraft that may.
fn add_flier(k: u32, may: bool, list: &mut Vec<u32>) -> Result<(), Memory>
    ensures { OnOk result (list.new.items ≡ (if may then list.old.items ++ k ∷ [] else list.old.items)) }
{
    if may {
        list.push(k)?;
    }
    Ok(())
}

/// The aircraft that may fly an activity, in the book's order. The table is the book's, from `PermissionTable::of`: it
/// is made once, and then each question is one read.
pub fn who_may_fly(
    alloc: Global,
    book: &Book,
    permissions: &PermissionTable,
    a: u32,
) -> Result<Vec<u32>, Memory>
    requires permissions { ArePermissionsOf book.now permissions.now }
    requires activity { a < activities book.now }
    ensures exactly { IfOk result (λ list. (k : ℕ) → Contains list.items k ↔ IsAllowed book.now k a) }
    ensures ordered { IfOk result (λ list. IsStrictlyIncreasing list.items) }
{
    laws::allowed_decides();
    let mut list = Vec::new(alloc);
    for k in 0..aircraft_of(book) {
        add_flier(k, permits(book, permissions, k, a), &mut list)?;
    }
    Ok(list)
}
