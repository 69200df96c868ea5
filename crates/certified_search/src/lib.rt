//! A search in either order, and one with its certificate: the text that it writes is accepted for what its outcome claims.
#![tactic(auto)]

mod certified;
pub mod laws;
mod order;
mod ordered;

pub use certified::{Certified, certified_search};
pub use order::Order;
pub use ordered::search_in_order;
