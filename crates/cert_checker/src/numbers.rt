//! Whether numbers are of the book. A line may have any number of 32 bits, so each is asked for before a table is read
//! at it.

ghost use Rattle.std.specs.Prelude.{◌≡◌, nat_lt};
ghost use Rattle.tail_book.specs.Lookup.{activities, aircraft};

use tail_book::Book;

/// Whether a number is that of an activity.
pub fn is_activity(book: &Book, a: u32) -> bool
    ensures { result ≡ nat_lt a (activities book.now) }
{
    (a as usize) < book.activities.len()
}

/// Whether a number is that of an aircraft.
pub fn is_aircraft(book: &Book, k: u32) -> bool
    ensures { result ≡ nat_lt k (aircraft book.now) }
{
    (k as usize) < book.tails.len()
}
