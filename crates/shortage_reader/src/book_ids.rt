//! Activities by their ids.

ghost use Rattle.std.specs.Prelude.{◌≡◌, ◌<◌, IfSome};
ghost use Rattle.tail_book.specs.Lookup.{activities};
ghost use Rattle.shortage_reader.specs.BookIds.{activity_named};

use tail_book::Book;

/// The number of the activity of an id, where the book has one.
pub fn activity_named(book: &Book, id: &[u8]) -> Option<u32>
    ensures value { result ≡ activity_named book.now id.now }
    ensures range { IfSome result (λ a. a < activities book.now) }
{
    for a in 0..book.activities.len() {
        if book.activities[a].id.as_bytes() == id {
            return Some(a as u32);
        }
    }
    None
}
