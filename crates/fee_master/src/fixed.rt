//! What stays the same while duals and fees move: a pool of a book's routes, and what was made of it before. It only borrows these, so
//! each step is handed the same one.

use crate::quota_uses::Counts;
use quota_rows::Quota;
use restricted_master::{Pool, RouteLists};
use tail_book::{Book, CostTable};

/// A pool of routes with its lists, and how often each of them uses each quota.
#[derive(Clone, Copy)]
pub struct Fixed<'a> {
    pub book: &'a Book,
    pub table: &'a CostTable,
    pub pool: &'a Pool,
    pub lists: &'a RouteLists,
    pub quotas: &'a [Quota],
    pub uses: &'a [Counts],
}
