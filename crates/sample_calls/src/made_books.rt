//! A book made in memory: no text is read, and `Book::new` looks over what a book has to keep.

ghost use Rattle.std.specs.Prelude.{◌≡◌, ◌↔◌, IfOk, IfSome, IsSome};
ghost use Rattle.tail_book.specs.inside.Sound.{IsBook};
ghost use Rattle.sample_calls.specs.MadeBooks.{plain_flight, with_aircraft};

use std::alloc::Global;
use tail_book::{Activity, Book, Memory, Name, Tail};

/// A flight that any aircraft may fly, from one airport of the rules to another, in minutes since 1970-01-01T00:00 UTC.
pub fn plain_flight(alloc: Global, id: Name, from: u32, to: u32, start: i64, end: i64) -> Activity
    ensures { result ≡ plain_flight id from to start end }
{
    Activity {
        id,
        flight: true,
        from,
        to,
        start,
        end,
        types: Vec::new(alloc),
        tags: Vec::new(alloc),
        tail: None,
        resets: Vec::new(alloc),
    }
}

/// The book with an aircraft more, behind the others, to ask what it would change; nothing where that is no book, as
/// where another has its name, or where it has no value for each counter.
pub fn with_aircraft(book: Book, tail: Tail) -> Result<Option<Book>, Memory>
    ensures exactly { IfOk result (λ found. IsSome found ↔ IsBook (with_aircraft book tail)) }
    ensures value { IfOk result (λ found. IfSome found (λ larger. larger ≡ with_aircraft book tail)) }
{
    let Book {
        activities,
        mut tails,
        rules,
    } = book;
    tails.push(tail)?;
    Ok(Book::new(activities, tails, rules))
}
