//! Laws of floors, and of the facts that follow from marks. No floor is above what a way brings, and whatever legal
//! plan the marks hold of, what follows from them holds of it too: so to add such facts loses no plan.

ghost use Rattle.std.specs.Prelude.{ℕ, List};
ghost use Rattle.tail_book.specs.Seen.{BookSeen};
ghost use Rattle.branch_marks.specs.declared.fact.Fact.{Fact};
ghost use Rattle.branch_marks.specs.Floors.{FloorsCount, FloorsAreLow};
ghost use Rattle.branch_marks.specs.inside.FloorLaws.{FloorsComeInTurn, LesserInAnyOrder};
ghost use Rattle.branch_marks.specs.Following.{FollowingFactsAreOfBook, FollowingFactsAreNew, FollowingFactsHold, FollowInTurnWithOneMore, FollowedMarksHold};

use crate::laws::{marked_routes_fit, usable_decides};
use tail_book::laws::{
    each_at_most_chains, each_at_most_itself, each_is_flown_once, limits_decide, links_rise,
    lower_stays_within, steps_keep_count, steps_keep_order,
};

/// There is a floor, or none, for each activity of the book.
pub fn floors_count()
    ensures { FloorsCount }
{}

/// Each floor is made of those before it, and stays as it is while further ones are made.
pub fn floors_come_in_turn()
    ensures { (book : BookSeen) (marks : List Fact) (k : ℕ) → FloorsComeInTurn book marks k }
{}

/// The lesser of floors may be taken in any order.
pub fn lesser_in_any_order()
    ensures { LesserInAnyOrder }
{}

/// Where a way leads to an activity there is a floor, at most what the way brings.
pub fn floors_are_low()
    ensures { FloorsAreLow }
{
    links_rise();
    each_at_most_itself();
    each_at_most_chains();
    steps_keep_count();
    usable_decides();
    limits_decide();
}

/// A fact that follows is of the book.
pub fn following_facts_are_of_book()
    ensures { FollowingFactsAreOfBook }
{}

/// A fact that follows is not among the marks.
pub fn following_facts_are_new()
    ensures { FollowingFactsAreNew }
{}

/// A fact that follows from marks holds in each legal plan of which they hold.
pub fn following_facts_hold()
    ensures { FollowingFactsHold }
{
    marked_routes_fit();
    each_is_flown_once();
    floors_are_low();
    each_at_most_itself();
    each_at_most_chains();
    steps_keep_order();
    lower_stays_within();
}

/// Facts follow in turn with one more at their end exactly where they do and that one follows from the marks with them.
pub fn follow_in_turn_with_one_more()
    ensures { FollowInTurnWithOneMore }
{}

/// Marks with facts that follow in turn hold of each legal plan of which the marks hold.
pub fn followed_marks_hold()
    ensures { FollowedMarksHold }
{
    following_facts_hold();
}
