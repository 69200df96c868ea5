//! How often a plan uses a quota, and whether it keeps quotas: a pass over the plan for each of them.

ghost use Rattle.std.specs.Prelude.{◌≡◌, ◌<◌, ◌≤◌, ◌↔◌, ◌^◌, All, IsTrue, length};
ghost use Rattle.tail_book.specs.Lookup.{activities};
ghost use Rattle.tail_book.specs.inside.Partition.{all_flown};
ghost use Rattle.quota_rows.specs.KeptPlans.{KeepsQuota, KeepsQuotas, uses, uses_in};

use crate::Quota;
use crate::quota::belongs_at;
use tail_book::{Book, Place, Plan, Route};

// How often a route uses a quota.
fn uses_in(book: &Book, quota: &Quota, route: &[u32]) -> u64
    requires of_book { All (λ a. a < activities book.now) route.now }
    ensures { result ≡ uses_in book.now quota.now route.now }
{
    let mut count = 0;
    let mut from = Place::Carry;
    for b in route {
        let b = *b;
        if belongs_at(book, quota, from, b) {
            count += 1;
        }
        from = Place::After(b);
    }
    count
}

// How often routes use a quota, all together.
fn uses_of_routes(book: &Book, quota: &Quota, routes: &[Route]) -> u64
    requires of_book { All (All (λ a. a < activities book.now)) routes.now }
    requires few { length (all_flown routes.now) < 2 ^ 64 }
    ensures { result ≡ uses book.now quota.now routes.now }
{
    let mut count = 0;
    for k in 0..routes.len() {
        let route = &routes[k];
        count += uses_in(book, quota, &route.0);
    }
    count
}

/// How often a plan uses a quota: how many of its connections belong to it.
pub fn uses(book: &Book, quota: &Quota, plan: &Plan) -> u64
    requires of_book { All (All (λ a. a < activities book.now)) plan.now }
    requires few { length (all_flown plan.now) < 2 ^ 64 }
    ensures { result ≡ uses book.now quota.now plan.now }
{
    uses_of_routes(book, quota, &plan.0)
}

// Whether a plan uses a quota no more often than it may.
fn keeps_one(book: &Book, quota: &Quota, plan: &Plan) -> bool
    requires of_book { All (All (λ a. a < activities book.now)) plan.now }
    requires few { length (all_flown plan.now) < 2 ^ 64 }
    ensures { IsTrue result ↔ KeepsQuota book.now plan.now quota.now }
{
    uses(book, quota, plan) <= quota.most
}

/// Whether a plan keeps each of the quotas.
pub fn keeps(book: &Book, quotas: &[Quota], plan: &Plan) -> bool
    requires of_book { All (All (λ a. a < activities book.now)) plan.now }
    requires few { length (all_flown plan.now) < 2 ^ 64 }
    ensures { IsTrue result ↔ KeepsQuotas book.now quotas.now plan.now }
{
    for quota in quotas {
        if !keeps_one(book, quota, plan) {
            return false;
        }
    }
    true
}
