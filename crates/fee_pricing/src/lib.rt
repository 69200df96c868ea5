//! Exact pricing of one aircraft with fees: the least weight of its legal routes that fit the marks, where each connection
//! also pays the fees of the quotas that it belongs to, and a route of that weight.
#![tactic(auto)]

mod arc;
mod asked;
mod end;
mod fee_pricer;
mod fill;
pub mod laws;

pub use arc::fee_of;
pub use fee_pricer::{FeePricer, price_fees};
