//! The two sides of a shortage, and the airports at which they meet.

ghost use Rattle.std.specs.Prelude.{◌≡◌, ◌<◌, length};
ghost use Rattle.tail_book.specs.Lookup.{activities};
ghost use Rattle.shortage_picture.specs.Sides.{place_of, word_of};

use tail_book::Book;

/// The sides of a shortage.
#[derive(Clone, Copy, PartialEq, Eq, Debug)]
pub enum Side {
    /// What is asked for, where it starts.
    Asked,
    /// What makes up for asked ones, where it ends.
    Brought,
}

/// How a side is called.
pub fn word_of(side: Side) -> &'static [u8]
    ensures { result.now ≡ word_of side }
{
    match side {
        Side::Asked => b"asked",
        Side::Brought => b"brought",
    }
}

/// The airport at which an activity of a side counts, by number.
pub fn place_of(book: &Book, side: Side, a: u32) -> u32
    requires { a < activities book.now }
    ensures value { result ≡ place_of book.now side a }
    ensures range { result < length book.now.rules.airports }
{
    match side {
        Side::Asked => book.activities[a as usize].from,
        Side::Brought => book.activities[a as usize].to,
    }
}
