//! Laws of marks to which facts are added. Each fact only asks for something more, so fewer routes fit: a stuck aircraft
//! stays stuck, and least weights and the bounds that they give never fall. Nothing is asked of how the facts came.

ghost use Rattle.branch_marks.specs.inside.MoreFacts.{AmongMore, MoreFactsOpenNothing, StuckStays};
ghost use Rattle.branch_marks.specs.inside.MoreFacts.{LowWeightsStay, LeastWeightsNeverFall, BoundsNeverFall, SumsNeverFall};

use crate::laws::rounded_up_is_least;

/// Facts stay among those that are added to them, also one addition after the other.
pub fn among_more()
    ensures { AmongMore }
{}

/// More facts open nothing: what is alive or usable, where an aircraft may end and which routes fit was so before.
pub fn more_facts_open_nothing()
    ensures { MoreFactsOpenNothing }
{}

/// An aircraft that is stuck stays stuck under more facts.
pub fn stuck_stays()
    ensures { StuckStays }
{
    more_facts_open_nothing();
}

/// What every legal route that fits weighs at least, every one that fits more facts does.
pub fn low_weights_stay()
    ensures { LowWeightsStay }
{
    more_facts_open_nothing();
}

/// The least weight of an aircraft never falls under more facts.
pub fn least_weights_never_fall()
    ensures { LeastWeightsNeverFall }
{
    low_weights_stay();
}

/// What duals and low weights bound, the same duals and the least weights under more facts bound.
pub fn bounds_never_fall()
    ensures { BoundsNeverFall }
{
    low_weights_stay();
    rounded_up_is_least();
}

/// The Lagrangian sum of duals never falls under more facts.
pub fn sums_never_fall()
    ensures { SumsNeverFall }
{
    bounds_never_fall();
}
