//! Who may come next after an activity.
//!
//! Where a Tie names one, no other link behind the activity is usable. So that one is looked up among the successors, and
//! the others are not gone over: a search then asks for one link there, and not for each.

ghost use Rattle.std.specs.Prelude.{◌≡◌, ◌<◌};
ghost use Rattle.std.specs.List.Sorted.{IsNonDecreasing};
ghost use Rattle.tail_book.specs.Lookup.{activities};
ghost use Rattle.route_search.specs.inside.Followers.{only};
ghost use Rattle.route_search.specs.inside.ForTask.{AreFollowersFor};
ghost use Rattle.route_search.specs.inside.Task.{IsTask};

use crate::task::{Task, every_task_is_sound};
use branch_marks::Named;
use connection_net::laws::{
    rows_are_their_places, rows_for_each, rows_rise, successors_are_links, successors_follow,
};
use tail_book::laws::rising_routes_are_below;

// One number alone, if the list has it.
fn only(next: &[u32], b: u32) -> &[u32]
    requires rises { IsNonDecreasing next.now }
    ensures { result.now ≡ only next.now b }
{
    rows_are_their_places();
    match next.binary_search(&b) {
        Ok(i) => &next[i..i + 1],
        Err(_) => &[],
    }
}

/// Who may come next after an activity: where a Tie names one, that alone, if it is a successor.
pub fn followers<'a>(task: &'a Task, x: u32) -> &'a [u32]
    requires task { IsTask task.now }
    requires activity { x < activities task.now.book.now }
    ensures { AreFollowersFor task.now x result.now }
{
    every_task_is_sound(task);
    successors_are_links();
    successors_follow();
    rows_rise();
    rows_for_each();
    rows_are_their_places();
    rising_routes_are_below();
    let next = task.net.successors(x);
    match task.marks.tied_after(x) {
        Named::Nothing => next,
        Named::One(b) => only(next, b),
        Named::Several => &[],
    }
}
