//! Laws over the definitions alone: the contract of each function is the law. None of them computes anything, and a
//! crate above that needs one calls it.

mod branching;
mod consequences;
mod covering;
mod deciding;
mod marked_routes;
mod more_facts;
mod route_weights;
mod settled_duals;
mod showing;
mod whole_families;

pub use branching::{
    branches_decide, branches_leave_fewer, facts_decide, facts_leave_no_more, holes_leave_no_plan,
    one_branch_holds, stuck_leaves_no_plan, undecided_decides, undecided_pairs_are_of_book,
};
pub use consequences::{
    floors_are_low, floors_come_in_turn, floors_count, follow_in_turn_with_one_more,
    followed_marks_hold, following_facts_are_new, following_facts_are_of_book,
    following_facts_hold, lesser_in_any_order,
};
pub use covering::{
    closed_families_bound, closed_family_decides, covered_steps_are_covered, covers_chain,
    covers_decides, endless_families_stick, ends_decide, labels_cover_themselves, no_end_decides,
};
pub use deciding::{
    alive_decides, fact_of_decides, fits_decides, follows_decides, has_fact_decides,
    may_end_decides, shut_decides, usable_decides,
};
pub use marked_routes::{fits_is_usable_to_its_end, marked_routes_fit, usable_with_one_more};
pub use more_facts::{
    among_more, bounds_never_fall, least_weights_never_fall, low_weights_stay,
    more_facts_open_nothing, stuck_stays, sums_never_fall,
};
pub use route_weights::{
    least_weights_are_one, least_weights_bound, least_weights_exist, low_weights_bound,
    rounded_up_is_least, weight_is_along, weight_with_one_more, weights_along,
};
pub use settled_duals::{
    least_in_is_least, routes_of_least_weights_cost_least, routes_of_weights_are_plan,
    settled_over_pool_is_settled, sums_exist,
};
pub use showing::{
    bounds_decide, shown_decides, shown_roots_bound, shown_trees_bound, shown_trees_refute,
};
pub use whole_families::{
    families_of_routes_exist, low_bounds_are_shown, low_weights_are_shown, stuck_is_shown,
};
