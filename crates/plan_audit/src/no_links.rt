//! Legs that do not connect: the aircraft is elsewhere, or not free in time.
//!
//! Whether the aircraft may fly both activities is no part of this: that is told by rules of its own.

ghost use Rattle.std.specs.Prelude.{◌≡◌, ◌++◌, IfOk, All};
ghost use Rattle.plan_audit.specs.inside.Kept.{IsLegOf};
ghost use Rattle.plan_audit.specs.Rules.{no_links};

use crate::broken::Broken;
use crate::leg::Leg;
use tail_book::{Book, Memory};
use turn_rules::connected;

/// Adds the legs that start elsewhere than the aircraft is, or before it can.
pub fn add_no_links(book: &Book, legs: &[Leg], list: &mut Vec<Broken>) -> Result<(), Memory>
    requires { All (IsLegOf book.now) legs.now }
    ensures { IfOk result (λ _. list.new.items ≡ list.old.items ++ no_links book.now legs.now) }
{
    for leg in legs {
        if !connected(book, leg.tail, leg.from, leg.activity) {
            list.push(Broken::NoLink(leg.tail, leg.activity))?;
        }
    }
    Ok(())
}
