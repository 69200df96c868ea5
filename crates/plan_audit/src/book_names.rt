//! The numbers of a book's names.
//!
//! A set that keeps the order of insertion finds a name at once, so each name of a plan is looked up once.

ghost use Rattle.std.specs.Prelude.{◌≡◌, ◌≢◌, ◌<◌, ◌^◌, length, map, position, AllPairs, IfOk, IfSome};
ghost use Rattle.std.specs.Str.{bytes_eq};
ghost use Rattle.plan_audit.specs.inside.BookNames.{AreBookNames};

use indexmap::IndexSet;
use std::alloc::Global;
use tail_book::{Activity, Book, Memory, Name, Tail};

/// A book, the names of its aircraft, and the ids of its activities.
#[derive(Drop)]
pub struct BookNames<'a> {
    pub book: &'a Book,
    pub tails: IndexSet<Name>,
    pub activities: IndexSet<Name>,
}

/// The names of a book.
pub fn names_of<'a>(alloc: Global, book: &'a Book) -> Result<BookNames<'a>, Memory>
    ensures book { IfOk result (λ names. names.book.now ≡ book.now) }
    ensures sound { IfOk result AreBookNames }
{
    let tails = names_of_tails(alloc, &book.tails)?;
    let activities = ids_of(alloc, &book.activities)?;
    Ok(BookNames {
        book,
        tails,
        activities,
    })
}

fn names_of_tails(alloc: Global, tails: &[Tail]) -> Result<IndexSet<Name>, Memory>
    requires { AllPairs (λ a b. a.name ≢ b.name) tails.now }
    ensures { IfOk result (λ set. set.keys ≡ map (λ t. t.name) tails.now) }
{
    let mut set = IndexSet::new(alloc);
    for tail in tails {
        set.insert_full(tail.name)?;
    }
    Ok(set)
}

fn ids_of(alloc: Global, activities: &[Activity]) -> Result<IndexSet<Name>, Memory>
    requires { AllPairs (λ a b. a.id ≢ b.id) activities.now }
    ensures { IfOk result (λ set. set.keys ≡ map (λ a. a.id) activities.now) }
{
    let mut set = IndexSet::new(alloc);
    for activity in activities {
        set.insert_full(activity.id)?;
    }
    Ok(set)
}

/// The number of a name, if it is among the names.
pub fn number_of(names: &IndexSet<Name>, name: Name) -> Option<u32>
    requires { length names.now.keys < 2 ^ 32 }
    ensures value { result ≡ position (bytes_eq name) names.now.keys }
    ensures within { IfSome result (λ number. number < length names.now.keys) }
{
    match names.get_index_of(&name) {
        Some(number) => Some(number as u32),
        None => None,
    }
}
