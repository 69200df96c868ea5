//! Laws over the definitions alone: the contract of each function is the law. They tell how little a fact that follows
//! changes: which aircraft it leaves the same, which floors it takes, and what may be dead since. So propagation may
//! look at that alone.

ghost use Rattle.propagator.specs.inside.SameFor.{SameFloors, SameDead, BarsLeaveOthers, MustsLeaveOthers};
ghost use Rattle.propagator.specs.inside.OneMore.{BarsTakeOneFloor, BarsKillNothingLater, BarsKillPredecessors, CutsTakeNoFloor, CutsMakeNothingFollow};
ghost use Rattle.propagator.specs.inside.CutOff.{MustsCutOff};
ghost use Rattle.propagator.specs.inside.Rising.{FloorsRise};
ghost use Rattle.propagator.specs.Keeping.{KeptForMore};

use branch_marks::laws::{
    alive_decides, floors_are_low, has_fact_decides, may_end_decides, usable_decides,
};
use connection_net::laws::predecessors_are_links;
use floor_rows::laws::{brought_tells, floors_are_least, least_are_floors};
use tail_book::laws::{
    each_at_most_chains, each_at_most_itself, limits_decide, links_rise, lower_stays_within,
    steps_keep_order,
};

/// Marks that leave an aircraft the same leave it the same floors.
pub fn same_floors()
    ensures { SameFloors }
{}

/// And nothing new is dead for it.
pub fn same_dead()
    ensures { SameDead }
{
    alive_decides();
    usable_decides();
    may_end_decides();
}

/// A Bar of one aircraft leaves every other the same.
pub fn bars_leave_others()
    ensures { BarsLeaveOthers }
{}

/// And so does a Must of an activity that was not alive for the other.
pub fn musts_leave_others()
    ensures { MustsLeaveOthers }
{}

/// A Bar that follows takes one floor.
pub fn bars_take_one_floor()
    ensures { BarsTakeOneFloor }
{
    floors_are_least();
    least_are_floors();
    brought_tells();
    usable_decides();
    limits_decide();
}

/// What is dead after it and comes later was dead before it.
pub fn bars_kill_nothing_later()
    ensures { BarsKillNothingLater }
{
    bars_take_one_floor();
    links_rise();
    alive_decides();
    usable_decides();
    may_end_decides();
}

/// And but for the activity itself, only its predecessors may be dead that were not.
pub fn bars_kill_predecessors()
    ensures { BarsKillPredecessors }
{
    bars_take_one_floor();
    predecessors_are_links();
    alive_decides();
    usable_decides();
    may_end_decides();
}

/// A Cut that follows leaves all floors.
pub fn cuts_take_no_floor()
    ensures { CutsTakeNoFloor }
{
    floors_are_least();
    least_are_floors();
    brought_tells();
    usable_decides();
    limits_decide();
}

/// What follows after it followed before it.
pub fn cuts_make_nothing_follow()
    ensures { CutsMakeNothingFollow }
{
    cuts_take_no_floor();
    alive_decides();
    usable_decides();
    may_end_decides();
}

/// Floors never fall while marks grow.
pub fn floors_rise()
    ensures { FloorsRise }
{
    floors_are_low();
    floors_are_least();
    each_at_most_itself();
    each_at_most_chains();
    steps_keep_order();
    lower_stays_within();
    usable_decides();
    limits_decide();
}

/// A Must of an aircraft cuts off what lies before its activity.
pub fn musts_cut_off()
    ensures { MustsCutOff }
{
    usable_decides();
    has_fact_decides();
}

/// A propagator that is kept for marks is kept for them with more facts behind theirs.
pub fn kept_for_more()
    ensures { KeptForMore }
{}
