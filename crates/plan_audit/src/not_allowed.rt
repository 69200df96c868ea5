//! Who flies what they may not: legs that a type, a tag, an avoided airport or a preassignment forbids, and legs in a
//! curfew.
//!
//! Both are asked of each leg alone, in a pass over the legs for each, so that each list is in reading order.

ghost use Rattle.std.specs.Prelude.{◌≡◌, ◌<◌, ◌++◌, IfOk, All};
ghost use Rattle.plan_audit.specs.inside.Kept.{IsLegOf};
ghost use Rattle.plan_audit.specs.Rules.{not_allowed, curfews};

use crate::broken::Broken;
use crate::leg::Leg;
use tail_book::{Book, Memory};
use turn_rules::{curfewed, permitted};

/// Adds the legs that their aircraft may not fly, curfews aside.
pub fn add_not_allowed(book: &Book, legs: &[Leg], list: &mut Vec<Broken>) -> Result<(), Memory>
    requires { All (IsLegOf book.now) legs.now }
    ensures { IfOk result (λ _. list.new.items ≡ list.old.items ++ not_allowed book.now legs.now) }
{
    for leg in legs {
        if !permitted(book, leg.tail, leg.activity) {
            list.push(Broken::NotAllowed(leg.tail, leg.activity))?;
        }
    }
    Ok(())
}

/// Adds the legs that a curfew forbids.
pub fn add_curfews(book: &Book, legs: &[Leg], list: &mut Vec<Broken>) -> Result<(), Memory>
    requires { All (IsLegOf book.now) legs.now }
    ensures { IfOk result (λ _. list.new.items ≡ list.old.items ++ curfews book.now legs.now) }
{
    for leg in legs {
        if curfewed(book, leg.tail, leg.activity) {
            list.push(Broken::Curfew(leg.tail, leg.activity))?;
        }
    }
    Ok(())
}
