//! The rules of who may fly what, and of what may come directly after what.
#![tactic(auto)]

mod connection;
mod costs;
mod curfew;
mod curfew_table;
pub mod laws;
mod local_time;
mod number_set;
mod permission;
mod permission_table;

pub use connection::{connected, earliest_start, free_from, gap, link, port, turn};
pub use costs::{arc_cost, connection_cost};
pub use curfew::curfewed;
pub use curfew_table::{CurfewTable, curfewed_by};
pub use local_time::local_offset;
pub use number_set::NumberSet;
pub use permission::{allowed, allowed_by, permitted};
pub use permission_table::{PermissionTable, link_by, permits};
