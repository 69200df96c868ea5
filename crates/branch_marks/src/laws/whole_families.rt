//! Laws of what families show: the contract of each function is the law. For whatever is true of an aircraft's routes,
//! a low weight, a bound of all aircraft, or that one is stuck, there is a family that shows it; no body makes one.

ghost use Rattle.branch_marks.specs.inside.WholeFamilies.{FamiliesOfRoutesExist, LowWeightsAreShown, StuckIsShown, LowBoundsAreShown};

use crate::laws::{
    fits_is_usable_to_its_end, labels_cover_themselves, usable_decides, usable_with_one_more,
    weight_with_one_more,
};
use tail_book::laws::{
    counters_with_one_more, legal_with_one_more, limits_decide, links_rise, place_with_one_more,
};

/// An aircraft has a shown family whose ends are those of its legal routes that fit.
pub fn families_of_routes_exist()
    ensures { FamiliesOfRoutesExist }
{
    usable_decides();
    limits_decide();
    labels_cover_themselves();
    links_rise();
    legal_with_one_more();
    usable_with_one_more();
    place_with_one_more();
    counters_with_one_more();
    weight_with_one_more();
    fits_is_usable_to_its_end();
}

/// What every legal route of an aircraft that fits weighs at least has a cover.
pub fn low_weights_are_shown()
    ensures { LowWeightsAreShown }
{
    families_of_routes_exist();
}

/// A stuck aircraft has a family that shows it.
pub fn stuck_is_shown()
    ensures { StuckIsShown }
{
    families_of_routes_exist();
}

/// Duals in the box, with a low weight of each aircraft, are a bound that covers show.
pub fn low_bounds_are_shown()
    ensures { LowBoundsAreShown }
{
    low_weights_are_shown();
}
