//! The book of a tail assignment problem: its types, and what legal routes, legal plans, costs and true answers are.
#![tactic(auto)]

mod activity;
mod aircraft;
mod book;
mod claim;
mod cost_table;
mod duals;
mod fliers;
mod flown;
pub mod laws;
pub mod limits;
mod lookup;
mod memory;
mod name;
mod outcome;
mod place;
mod plan;
mod raw_plan;
mod rules;
mod sound;

pub use activity::Activity;
pub use aircraft::Tail;
pub use book::Book;
pub use claim::{Claim, claim_of};
pub use cost_table::{COST_UNIT, CostTable, band_cost};
pub use duals::Duals;
pub use fliers::plan_by;
pub use flown::Flown;
pub use lookup::{end_of, port_turn, start_of, type_turn};
pub use memory::Memory;
pub use name::Name;
pub use outcome::Outcome;
pub use place::Place;
pub use plan::{Plan, Route};
pub use raw_plan::{RawLine, RawPlan};
pub use rules::{AircraftType, Airport, Band, Change, Counter, CounterKind, Curfew, Rules};
