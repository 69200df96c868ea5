//! Stretches of time in which the clocks of an airport do not change.

ghost use Rattle.std.specs.Prelude.{◌≡◌, ◌<◌, length};
ghost use Rattle.plan_picture.specs.Stretches.{stretch_from};
ghost use Rattle.plan_picture.specs.inside.Drawable.{IsNear, IsStretch};

use crate::layout::first_moment;
use tail_book::Book;
use turn_rules::local_offset;

/// A stretch of time in which the clocks of an airport do not change.
#[derive(Clone, Copy)]
pub struct Stretch {
    /// The first moment of the picture.
    pub first: i64,
    /// The minutes to add to UTC for local time.
    pub offset: i64,
    /// Its first moment, and the first behind it.
    pub from: i64,
    pub to: i64,
}

/// What lasts from one moment up to another, by an airport's clocks of the first.
pub fn stretch_from(book: &Book, port: u32, from: i64, to: i64) -> Stretch
    requires port { port < length book.now.rules.airports }
    requires from { IsNear from }
    requires to { IsNear to }
    ensures value { result ≡ stretch_from book.now port from to }
    ensures range { IsStretch result }
{
    let first = first_moment(book);
    let offset = local_offset(book, port, from);
    Stretch {
        first,
        offset,
        from,
        to,
    }
}
