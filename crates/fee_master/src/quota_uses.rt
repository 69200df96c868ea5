//! How often each route of a pool uses each quota: counted once, before duals and fees move.
//!
//! The counts of one quota lie in one list, so a look at its fee reads them in order.

ghost use Rattle.std.specs.Prelude.{◌≡◌, ◌<◌, ◌≤◌, ◌^◌, All, IfOk, length};
ghost use Rattle.tail_book.specs.Lookup.{activities};
ghost use Rattle.quota_rows.specs.KeptPlans.{uses_in};
ghost use Rattle.restricted_master.specs.Lists.{list_at};
ghost use Rattle.restricted_master.specs.Pool.{IsPoolFor};
ghost use Rattle.fee_master.specs.inside.Uses.{AreUses, AreUsesOf};

use quota_rows::{Quota, belongs_at};
use restricted_master::Pool;
use std::alloc::Global;
use std::marker::Model;
use tail_book::laws::{every_book_is_sound, rising_routes_are_below, rising_routes_are_short};
use tail_book::{Book, CostTable, Memory, Place};

/// A count for each route of a pool. Contracts see their list.
#[derive(Debug, Drop)]
pub struct Counts(pub Vec<u32>);

impl Model for Counts {
    ghost use Rattle.std.specs.Prelude.{ℕ, List};

    ghost Value = { List ℕ };

    ghost view = { λ c. c.0.items };
}

// How often a route uses a quota.
fn uses_in(book: &Book, quota: &Quota, route: &[u32]) -> u32
    requires of_book { All (λ a. a < activities book.now) route.now }
    requires few { length route.now < 2 ^ 32 }
    ensures { result ≡ uses_in book.now quota.now route.now }
{
    let mut count = 0;
    let mut from = Place::Carry;
    for b in route {
        let b = *b;
        if belongs_at(book, quota, from, b) {
            count += 1;
        }
        from = Place::After(b);
    }
    count
}

// How often each route of a pool uses a quota.
fn uses_of(
    alloc: Global,
    book: &Book,
    table: &CostTable,
    pool: &Pool,
    quota: &Quota,
) -> Result<Counts, Memory>
    requires { IsPoolFor table.now book.now pool.now }
    ensures { IfOk result (AreUsesOf book.now pool.now quota.now) }
{
    every_book_is_sound(book);
    rising_routes_are_below();
    rising_routes_are_short();
    let mut counts = Vec::with_capacity(alloc, pool.count())?;
    for i in 0..pool.count() {
        counts.push(uses_in(book, quota, pool.route(i)))?;
    }
    Ok(Counts(counts))
}

/// How often each route of a pool uses each of the quotas.
pub fn uses(
    alloc: Global,
    book: &Book,
    table: &CostTable,
    pool: &Pool,
    quotas: &[Quota],
) -> Result<Vec<Counts>, Memory>
    requires { IsPoolFor table.now book.now pool.now }
    ensures { IfOk result (λ uses. AreUses book.now pool.now quotas.now uses.items) }
{
    let mut uses = Vec::with_capacity(alloc, quotas.len())?;
    for q in 0..quotas.len() {
        uses.push(uses_of(alloc, book, table, pool, &quotas[q])?)?;
    }
    Ok(uses)
}

/// One of the lists.
pub fn counts_at(uses: &[Counts], q: usize) -> &[u32]
    requires { q < length uses.now }
    ensures { result.now ≡ list_at uses.now q }
{
    let counts = &uses[q];
    &counts.0
}
