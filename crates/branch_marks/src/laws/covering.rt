//! Laws of labels that cover one another, and of closed families. Any closed family bounds every legal route that fits
//! by its lightest end, and shows the aircraft stuck where it has none, whoever made it and however.

ghost use Rattle.branch_marks.specs.Labels.{LabelsCoverThemselves, CoversChain, CoveredStepsAreCovered};
ghost use Rattle.branch_marks.specs.Families.{ClosedFamiliesBound, EndlessFamiliesStick};
ghost use Rattle.branch_marks.specs.inside.FamilyTests.{CoversDecides, ClosedFamilyDecides, EndsDecide, NoEndDecides};

use crate::laws::{alive_decides, may_end_decides, usable_decides, weight_is_along};
use tail_book::laws::{
    each_at_most_chains, each_at_most_decides, each_at_most_itself, limits_decide,
    lower_stays_within, steps_keep_order,
};

/// A label covers itself.
pub fn labels_cover_themselves()
    ensures { LabelsCoverThemselves }
{
    each_at_most_itself();
}

/// What covers the middle covers what the middle covers.
pub fn covers_chain()
    ensures { CoversChain }
{
    each_at_most_chains();
}

/// A covered label's step is covered.
pub fn covered_steps_are_covered()
    ensures { CoveredStepsAreCovered }
{
    steps_keep_order();
    lower_stays_within();
}

/// A closed family bounds the weight of every legal route that fits.
pub fn closed_families_bound()
    ensures { ClosedFamiliesBound }
{
    each_at_most_itself();
    each_at_most_chains();
    steps_keep_order();
    lower_stays_within();
    weight_is_along();
}

/// A closed family at which the aircraft may end nowhere shows that it is stuck.
pub fn endless_families_stick()
    ensures { EndlessFamiliesStick }
{
    closed_families_bound();
}

/// Whether a label covers another is decided by a test.
pub fn covers_decides()
    ensures { CoversDecides }
{
    each_at_most_decides();
}

/// Whether a family is closed is decided by a test.
pub fn closed_family_decides()
    ensures { ClosedFamilyDecides }
{
    alive_decides();
    usable_decides();
    limits_decide();
    covers_decides();
}

/// Whether no end of a family is lighter than a value is decided by a test.
pub fn ends_decide()
    ensures { EndsDecide }
{
    may_end_decides();
}

/// Whether the aircraft may end nowhere in a family is decided by a test.
pub fn no_end_decides()
    ensures { NoEndDecides }
{
    may_end_decides();
}
