//! Labels in buckets: rows of numbers, each at a node, of which a bucket holds those that no other row there covers.
#![tactic(auto)]

mod bucket;
pub mod laws;
mod offered;
mod packed;
mod rows;
mod store;

pub use offered::Offered;
pub use store::Store;
