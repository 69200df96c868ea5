//! The connection network of a book: which activity may come directly after which, for at least one aircraft.
#![tactic(auto)]

mod aircraft_set;
mod airports;
pub mod laws;
mod link_table;
mod net;
mod rows;

pub use net::Net;
