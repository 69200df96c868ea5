//! Which activities may come over a short connection in a plan that is looked for: as many as each quota lets a plan have, so chosen that
//! all activities of its airport still have something to come from, and near what mixtures have.

ghost use Rattle.std.specs.Prelude.{◌≡◌, ◌<◌};
ghost use Rattle.tail_book.specs.Lookup.{activities};
ghost use Rattle.connection_net.specs.Net.{net_of};

use crate::shares::worth_of;
use connection_net::Net;
use dual_ascent::Member;
use quota_demands::{Worth, assigned};
use quota_rows::{Fees, Quota, belongs};
use restricted_master::{Pool, number_of};
use std::alloc::Global;
use tail_book::{Book, Duals, Memory};

// The price of a short connection rises at most so often.
const RISES: u32 = 30;

// The first price, in parts of 10,000 of an aircraft's mixture.
const FIRST_PRICE: i64 = 100;

// An assignment with no more short connections than the quota lets a plan have, by a price that rises until it has.
fn within(
    alloc: Global,
    book: &Book,
    net: &Net,
    quota: &Quota,
    worth: &mut Worth,
) -> Result<Option<Vec<u32>>, Memory>
    requires { net.now ≡ net_of book.now }
{
    for _rise in 0..RISES {
        let found = assigned(alloc, book, net, quota, worth)?;
        if found.len() as u64 <= quota.most {
            return Ok(Some(found));
        }
        worth.price = (worth.price.saturating_mul(3) / 2).max(FIRST_PRICE);
    }
    Ok(None)
}

// What the mixtures have of the short connections into each activity.
fn short_shares(
    alloc: Global,
    book: &Book,
    quota: &Quota,
    worth: &Worth,
) -> Result<Vec<i64>, Memory> {
    let mut shares = Vec::with_capacity(alloc, book.activities.len())?;
    for b in 0..book.activities.len() as u32 {
        shares.push(short_share(book, quota, worth, b))?;
    }
    Ok(shares)
}

// What they have of those into one.
fn short_share(book: &Book, quota: &Quota, worth: &Worth, b: u32) -> i64
    requires { b < activities book.now }
{
    let mut sum = 0i64;
    for a in 0..b {
        if belongs(book, quota, a, b) {
            sum = sum.saturating_add(worth.of(b, a as usize));
        }
    }
    sum
}

// The activity with the largest share, where one has any.
fn largest(shares: &[i64]) -> Option<u32> {
    let (mut found, mut most) = (None, 0);
    for b in 0..shares.len() {
        if shares[b] > most {
            found = Some(number_of(b));
            most = shares[b];
        }
    }
    found
}

// Adds activities up to as many as the quota lets come, those with the largest shares first.
fn fill(quota: &Quota, shares: &mut [i64], spared: &mut Vec<u32>) -> Result<(), Memory> {
    for b in spared.iter() {
        if let Some(share) = shares.get_mut(*b as usize) {
            *share = 0;
        }
    }
    for _turn in 0..shares.len() {
        let Some(b) = largest(shares) else {
            break;
        };
        if spared.len() as u64 >= quota.most {
            break;
        }
        spared.push(b)?;
        if let Some(share) = shares.get_mut(b as usize) {
            *share = 0;
        }
    }
    Ok(())
}

/// The activities that may come over a short connection, in the groups of their quotas, by mixtures at a temperature in thousandths of a
/// cost unit. Where a quota has none that are few enough there is no answer.
pub fn spared_by(
    alloc: Global,
    book: &Book,
    net: &Net,
    quotas: &[Quota],
    pool: &Pool,
    duals: &Duals,
    fees: &Fees,
    temperature: i64,
) -> Result<Option<Vec<Member>>, Memory>
    requires { net.now ≡ net_of book.now }
{
    let mut spared = Vec::new(alloc);
    for q in 0..quotas.len() {
        let quota = &quotas[q];
        let mut worth = worth_of(alloc, book, quotas, quota, pool, duals, fees, temperature)?;
        match within(alloc, book, net, quota, &mut worth)? {
            Some(mut found) => {
                let mut shares = short_shares(alloc, book, quota, &worth)?;
                fill(quota, &mut shares, &mut found)?;
                add_all(&mut spared, number_of(q), &found)?;
            }
            None => return Ok(None),
        }
    }
    Ok(Some(spared))
}

// Adds activities to a group.
fn add_all(members: &mut Vec<Member>, group: u32, things: &[u32]) -> Result<(), Memory> {
    for thing in things {
        members.push(Member {
            group,
            thing: *thing,
        })?;
    }
    Ok(())
}
