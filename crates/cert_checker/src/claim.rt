//! Whether a certificate's plan is the one that its claim has. The routes are made of the fliers, and audited like those of
//! any plan.

ghost use Rattle.std.specs.Prelude.{◌≡◌, ◌<◌, ◌^◌, IfOk, Some, length};
ghost use Rattle.tail_book.specs.Seen.{BookSeen};
ghost use Rattle.cert_checker.specs.Certificate.{asked_of, claimed_cost};
ghost use Rattle.cert_checker.specs.Reasons.{has_claimed_plan, is_plan_of_fliers, reaches};
ghost use Rattle.cert_checker.specs.inside.Means.{AreMeansOf};

use crate::means::Means;
use plan_audit::audit_plan;
use std::alloc::Global;
use tail_book::laws::{
    every_book_is_sound, legal_plan_decides, own_costs_are_for_book, own_costs_of_legal_plans,
};
use tail_book::{Book, Claim, Memory, plan_by};

// Whether a list of fliers makes a legal plan of this cost.
fn is_plan_of_fliers(
    alloc: Global,
    book: &Book,
    means: &Means,
    fliers: &[u32],
    cost: u64,
) -> Result<bool, Memory>
    requires means { AreMeansOf book.now means.now }
    requires fliers { length fliers.now < 2 ^ 32 }
    ensures { IfOk result (λ is. is ≡ is_plan_of_fliers book.now fliers.now cost) }
{
    every_book_is_sound(book);
    legal_plan_decides();
    own_costs_are_for_book();
    own_costs_of_legal_plans();
    let plan = plan_by(alloc, fliers, book.tails.len() as u32)?;
    let audited = audit_plan(alloc, book, &means.costs, &plan)?;
    let Some(found) = audited else {
        return Ok(false);
    };
    Ok(found == cost)
}

/// The cost that the plan of a claim has to have, in cost units, where the claim has one.
pub fn claimed_cost(claim: Claim) -> Option<u64>
    ensures { result ≡ claimed_cost claim }
{
    match claim {
        Claim::Optimal(cost) => Some(cost),
        Claim::Infeasible => None,
        Claim::Limit { low: _, high } => high,
    }
}

/// Whether fliers make a legal plan of the cost that is claimed.
pub fn has_plan(
    alloc: Global,
    book: &Book,
    means: &Means,
    fliers: &[u32],
    cost: Option<u64>,
) -> Result<bool, Memory>
    requires means { AreMeansOf book.now means.now }
    requires fliers { length fliers.now < 2 ^ 32 }
    ensures { IfOk result (λ is. is ≡ has_claimed_plan book.now (Some fliers.now) cost) }
{
    match cost {
        Some(cost) => is_plan_of_fliers(alloc, book, means, fliers, cost),
        None => Ok(false),
    }
}

/// What every bound has to reach for a claim, in cost units.
pub fn asked_of(means: &Means, claim: Claim) -> u64
    ensures { (book : BookSeen) → AreMeansOf book means.now → result ≡ asked_of book claim }
{
    match claim {
        Claim::Optimal(cost) => cost,
        Claim::Infeasible => means.costs.greatest_cost() + 1,
        Claim::Limit { low, high: _ } => low,
    }
}

/// Whether each bound so far is at least what is asked.
pub fn reaches(asked: u64, low: Option<u128>) -> bool
    ensures { result ≡ reaches asked low }
{
    match low {
        None => true,
        Some(least) => asked as u128 <= least,
    }
}
