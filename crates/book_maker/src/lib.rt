//! The book of a timetable, a fleet and rules: names are numbered, and activities are put in order.
#![tactic(auto)]

mod activity_found;
mod carry_found;
mod changes;
mod declare;
mod known;
mod looked_up;
mod made;
mod name_numbers;
mod order;
mod rules_found;
mod tags;
mod tail_found;

pub use made::{make_book, read_book};
