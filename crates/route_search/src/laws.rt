//! Laws of a search: the contract of each function is the law. Where all buckets are done as far as a limit, the best
//! end is the least weight, and where there is none no route is within the cut; and a cut that is far from 0 may be
//! clamped.

ghost use Rattle.route_search.specs.inside.Laws.{ClampedCutsFindTheSame, DoneBucketsAreExact, FittingRestsAreSmall};

use branch_marks::laws::{fits_is_usable_to_its_end, weight_is_along, weights_along};
use pricing::laws::kept_rows_are_true;
use tail_book::laws::{
    each_at_most_chains, each_at_most_itself, links_rise, lower_stays_within,
    reduced_costs_are_small, steps_keep_order,
};

/// A rest of a route that fits weighs no more than 2^61 on either side of 0.
pub fn fitting_rests_are_small()
    ensures { FittingRestsAreSmall }
{
    links_rise();
    reduced_costs_are_small();
    weights_along();
}

/// Where all buckets are done as far as the limit, the best end is the least, and without one nothing is within the cut.
pub fn done_buckets_are_exact()
    ensures { DoneBucketsAreExact }
{
    each_at_most_itself();
    each_at_most_chains();
    steps_keep_order();
    lower_stays_within();
    weight_is_along();
    fits_is_usable_to_its_end();
    kept_rows_are_true();
}

/// No weight is so large that a clamped cut would find another answer.
pub fn clamped_cuts_find_the_same()
    ensures { ClampedCutsFindTheSame }
{
    fitting_rests_are_small();
    weight_is_along();
}
