//! Activities in order of their starts, and of their ids where the starts are equal.
//!
//! No two ids are equal, so there is one such order, whatever sort finds it. It is sorted once, and stays so.

ghost use Rattle.std.specs.Prelude.{◌≡◌, ◌≢◌, AllPairs, OnOk};
ghost use Rattle.book_maker.specs.Order.{in_order};

use tail_book::{Activity, Memory};

/// Puts activities in order.
pub fn put_in_order(activities: &mut Vec<Activity>) -> Result<(), Memory>
    requires { AllPairs (λ a b. a.id ≢ b.id) activities.old.items }
    ensures { OnOk result (activities.new.items ≡ in_order activities.old.items) }
{
    activities.sort_by_key(|activity| (activity.start, activity.id))?;
    Ok(())
}
