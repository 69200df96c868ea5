//! Laws of pricing with fees: the contract of each function is the law. Each row is true of a route, and where all buckets are
//! done the labels are a closed family: so the least end is the least weight, and without an end the aircraft is stuck.
//! These hold whatever a link adds to a weight. With fees it adds little enough, and a route weighs what its links add.

ghost use Rattle.fee_pricing.specs.inside.Laws.{OffersKeepTruth, KeptRowsAreTrue, TrueRowsAreSmall, FilledStoresAreClosed, LeastEndsAreLeast, EndlessStoresStick, FeesAreFair, FeeArcsAreFair, FeeWeightIsByArcs};

use branch_marks::laws::{fits_is_usable_to_its_end, usable_with_one_more};
use label_store::laws::{kept_rows_are_offered, offers_keep_rows};
use quota_rows::laws::fee_weight_is_along;
use tail_book::laws::{
    counters_with_one_more, each_at_most_chains, each_at_most_itself, legal_routes_rise,
    legal_with_one_more, links_rise, lower_stays_within, place_with_one_more,
    rising_routes_are_below, rising_routes_are_short, routes_cost_at_most_in, steps_keep_order,
};

/// What is offered over a usable link and within the limits leaves each row true.
pub fn offers_keep_truth()
    ensures { OffersKeepTruth }
{
    offers_keep_rows();
    kept_rows_are_offered();
    legal_with_one_more();
    counters_with_one_more();
    place_with_one_more();
    usable_with_one_more();
}

/// The carry-in is true, with the empty route, and so is each row that is kept.
pub fn kept_rows_are_true()
    ensures { KeptRowsAreTrue }
{}

/// Where no link adds much, a true row weighs no more than 2^61 on either side of 0.
pub fn true_rows_are_small()
    ensures { TrueRowsAreSmall }
{
    legal_routes_rise();
    rising_routes_are_short();
    rising_routes_are_below();
}

/// Where all buckets are done their labels are a closed family.
pub fn filled_stores_are_closed()
    ensures { FilledStoresAreClosed }
{
    links_rise();
}

/// A least end has the least weight, which the route to it attains.
pub fn least_ends_are_least()
    ensures { LeastEndsAreLeast }
{
    each_at_most_itself();
    each_at_most_chains();
    steps_keep_order();
    lower_stays_within();
    fits_is_usable_to_its_end();
}

/// Without an end the aircraft is stuck.
pub fn endless_stores_stick()
    ensures { EndlessStoresStick }
{
    each_at_most_itself();
    each_at_most_chains();
    steps_keep_order();
    lower_stays_within();
}

/// By the book's own costs fees in their box are fair.
pub fn fees_are_fair()
    ensures { FeesAreFair }
{}

/// With duals and fees in their boxes and at most fifty quotas no link adds much.
pub fn fee_arcs_are_fair()
    ensures { FeeArcsAreFair }
{
    routes_cost_at_most_in();
}

/// A route weighs with fees what its links add.
pub fn fee_weight_is_by_arcs()
    ensures { FeeWeightIsByArcs }
{
    fee_weight_is_along();
}
