//! Connection quotas: how many short connections an airport takes on a day, how often a plan uses that, and fees for it.
#![tactic(auto)]

mod fees;
pub mod laws;
mod plan_uses;
mod quota;
mod quota_table;

pub use fees::Fees;
pub use plan_uses::{keeps, uses};
pub use quota::{QUOTA_LIMIT, Quota, belongs, belongs_at};
pub use quota_table::{QuotaStop, read_quotas};
