//! Laws of routes that fit the marks. Those of a legal plan of which the marks hold do; and whether a route fits is
//! told link by link and at its end, so that a beginning can be judged before the rest is known.

ghost use Rattle.branch_marks.specs.inside.Fitting.{MarkedRoutesFit, FitsIsUsableToItsEnd, UsableWithOneMore};

use tail_book::laws::{each_is_flown_once, legal_routes_rise};

/// In a legal plan of which the marks hold each route fits them.
pub fn marked_routes_fit()
    ensures { MarkedRoutesFit }
{
    legal_routes_rise();
    each_is_flown_once();
}

/// A route fits exactly where its links are usable and the aircraft may end at its end.
pub fn fits_is_usable_to_its_end()
    ensures { FitsIsUsableToItsEnd }
{}

/// With an activity more the links of a route are usable exactly where they were, and the one to it is.
pub fn usable_with_one_more()
    ensures { UsableWithOneMore }
{}
