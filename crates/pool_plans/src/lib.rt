//! Plans put together from a pool of routes, and the parts of plans that a search for them goes by.
//!
//! In a plan each aircraft has one route, and each activity stands in exactly one of them. Only a cheaper plan than the best known
//! one is wanted, so only routes take part whose weight is near the least of their aircraft, and a search among few routes is short.
//! It stops after the turns that it is given.
//! What a pool's routes have in a slice of the timetable says what each aircraft may be given there, marks hold parts of a plan while
//! others are planned, and a plan under way may leave activities out. None of this asks for new routes or moves a dual.
#![tactic(auto)]

mod bits;
mod candidates;
mod fixing;
mod judged_plans;
mod leads;
mod mixing;
mod partition;
mod slice;
mod soft_plan;
mod standing;
mod tried;
mod weights;

pub use fixing::{fix, marks_beside, marks_outside};
pub use judged_plans::{JudgedPlan, find_cover, find_plan};
pub use leads::{Lead, WHOLE, leads_of};
pub use mixing::mixed;
pub use slice::{ALL, Slice};
pub use soft_plan::SoftPlan;
pub use standing::{furthest_first, kept_beside};
pub use tried::{PlanPart, TriedParts};
pub use weights::Weights;
