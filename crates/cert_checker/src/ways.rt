//! Where an aircraft may go on to from a place, by the network: from its carry-in to its heads, and from an activity to those
//! that some aircraft may fly directly after it.

ghost use Rattle.std.specs.Prelude.{◌≡◌, ◌<◌};
ghost use Rattle.tail_book.specs.Lookup.{aircraft};
ghost use Rattle.tail_book.specs.Place.{IsPlaceOf};
ghost use Rattle.cert_checker.specs.inside.Means.{AreMeansOf};
ghost use Rattle.cert_checker.specs.inside.Ways.{WaysAreAll, WaysAreOfBook, ways_of};

use crate::means::Means;
use branch_marks::laws::usable_decides;
use connection_net::laws::{
    heads_are_links, rows_are_their_places, rows_for_each, rows_rise, successors_are_links,
};
use tail_book::{Book, Place};

/// The activities that an aircraft may come to from a place, by the network.
pub fn ways<'a>(book: &Book, means: &'a Means, k: u32, from: Place) -> &'a [u32]
    requires means { AreMeansOf book.now means.now }
    requires aircraft { k < aircraft book.now }
    requires place { IsPlaceOf book.now from }
    ensures { result.now ≡ ways_of book.now k from }
{
    rows_for_each();
    match from {
        Place::Carry => means.net.heads(k),
        Place::After(x) => means.net.successors(x),
    }
}

/// The ways of an aircraft lead to activities of the book.
pub fn ways_are_of_book()
    ensures { WaysAreOfBook }
{
    rows_rise();
    rows_are_their_places();
}

/// Where a link is usable for an aircraft, what it leads to stands among the aircraft's ways.
pub fn ways_are_all()
    ensures { WaysAreAll }
{
    usable_decides();
    heads_are_links();
    successors_are_links();
    rows_are_their_places();
}
