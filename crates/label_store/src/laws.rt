//! Laws of a store: the contract of each function is the law. Kept rows stay as they are, what was covered stays
//! covered, and an offered row is covered from then on: so whoever looks for routes may forget a row that is not kept.

ghost use Rattle.label_store.specs.Store.{IsStore};
ghost use Rattle.label_store.specs.inside.Laws.{OffersKeepStores, OffersKeepCovered, OfferedRowsAreCovered, OffersKeepRows, KeptRowsAreOffered, BucketsHaveTheRest, OthersStay, RowsOfBucketsAreApart};

use crate::Store;
use tail_book::laws::{each_at_most_chains, each_at_most_decides, each_at_most_itself};

/// Every store keeps what `IsStore` says of its rows and buckets.
pub fn every_store_is_sound(store: &Store)
    ensures { IsStore store.now }
{
    let _ = &store.rows;
}

/// An offer of a row of the width, from a kept row or none, keeps what `IsStore` says.
pub fn offers_keep_stores()
    ensures { OffersKeepStores }
{
    each_at_most_decides();
}

/// What was covered at a node stays covered there, whatever is offered to any node.
pub fn offers_keep_covered()
    ensures { OffersKeepCovered }
{
    each_at_most_decides();
    each_at_most_chains();
    each_at_most_itself();
}

/// After an offer the offered row is covered at its node.
pub fn offered_rows_are_covered()
    ensures { OfferedRowsAreCovered }
{
    each_at_most_itself();
}

/// An offer keeps all rows with their values, parents and nodes.
pub fn offers_keep_rows()
    ensures { OffersKeepRows }
{}

/// A kept row has the values, the parent and the node that were offered.
pub fn kept_rows_are_offered()
    ensures { KeptRowsAreOffered }
{}

/// A bucket has the row that it took and, of those before, exactly the ones that this row does not cover.
pub fn buckets_have_the_rest()
    ensures { BucketsHaveTheRest }
{
    each_at_most_decides();
}

/// An offer to one node changes no bucket of another one.
pub fn others_stay()
    ensures { OthersStay }
{}

/// Of two rows at different places of one bucket neither covers the other.
pub fn rows_of_buckets_are_apart()
    ensures { RowsOfBucketsAreApart }
{}
