//! Laws of pricing: the contract of each function is the law. Each row is true of a route, and where all buckets are
//! done the labels are a closed family: so the least end is the least weight, and without an end the aircraft is stuck.
//! They hold of any store that is filled so, whoever fills it.

ghost use Rattle.pricing.specs.inside.Laws.{KeptRowsAreTrue, OffersKeepTruth, TrueRowsAreSmall, FilledStoresAreClosed, LeastEndsAreLeast, EndlessStoresStick};

use branch_marks::laws::{
    closed_families_bound, endless_families_stick, fits_is_usable_to_its_end, usable_with_one_more,
    weight_with_one_more,
};
use label_store::laws::{kept_rows_are_offered, offers_keep_rows};
use tail_book::laws::{
    counters_with_one_more, legal_routes_rise, legal_with_one_more, links_rise,
    place_with_one_more, reduced_costs_are_small,
};

/// What is offered over a usable link and within the limits leaves each row true.
pub fn offers_keep_truth()
    ensures { OffersKeepTruth }
{
    offers_keep_rows();
    kept_rows_are_offered();
    legal_with_one_more();
    counters_with_one_more();
    place_with_one_more();
    weight_with_one_more();
    usable_with_one_more();
}

/// The carry-in is true, with the empty route, and so is each row that is kept.
pub fn kept_rows_are_true()
    ensures { KeptRowsAreTrue }
{}

/// A true row weighs no more than 2^61 on either side of 0.
pub fn true_rows_are_small()
    ensures { TrueRowsAreSmall }
{
    legal_routes_rise();
    reduced_costs_are_small();
}

/// Where all buckets are done their labels are a closed family.
pub fn filled_stores_are_closed()
    ensures { FilledStoresAreClosed }
{
    links_rise();
}

/// A least end has the least weight, which the route to it attains.
pub fn least_ends_are_least()
    ensures { LeastEndsAreLeast }
{
    closed_families_bound();
    fits_is_usable_to_its_end();
}

/// Without an end the aircraft is stuck.
pub fn endless_stores_stick()
    ensures { EndlessStoresStick }
{
    endless_families_stick();
}
