//! The timetable: its activities, read and checked up to the first refusal.
#![tactic(auto)]

mod activity;
mod timetable;

pub use activity::RawActivity;
pub use timetable::read_timetable;
