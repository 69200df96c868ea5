//! A node of a search under quotas: its marks are shut, and it ends by a quota with too many Ties, by a hole, by an aircraft without a
//! route, by a bound with fees, or in a split.
#![tactic(auto)]

mod bounding;
mod choice;
mod counting;
mod fee_prices;
mod free_pairs;
mod kept_routes;
mod node;
mod raising;
mod settled;
mod shorts;
mod shutting;
mod step;
mod suggesting;
mod tools;

pub use kept_routes::take_kept;
pub use node::{quota_node, quota_node_with};
pub use raising::raise;
pub use shorts::{cut_shorts, lowered};
pub use step::QuotaStep;
pub use tools::QuotaTools;
