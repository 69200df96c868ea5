//! Duals by which a route weighs its surplus: an asked activity saves a cost unit, and a brought one costs it.

ghost use Rattle.std.specs.Prelude.{◌≡◌, IfOk, cond, pos};
ghost use Rattle.tail_book.specs.Lookup.{activities};
ghost use Rattle.branch_marks.specs.Settled.{AreDuals};
ghost use Rattle.plan_shortage.specs.inside.Pricing.{costless, unit_dual, unit_duals, unit_if};

use std::alloc::Global;
use tail_book::laws::every_book_is_sound;
use tail_book::{Book, COST_UNIT, Duals, Memory};

// A cost unit in thousandths, or nothing.
fn unit_if(test: bool) -> i64
    ensures { result ≡ pos (unit_if test) }
{
    if test { COST_UNIT as i64 } else { 0 }
}

// The dual of an activity.
fn unit_dual(asked: &[u32], brought: &[u32], a: u32) -> i64
    ensures { result ≡ unit_dual asked.now brought.now a }
{
    unit_if(asked.contains(&a)) - unit_if(brought.contains(&a))
}

/// The duals of a book's activities, each in the box of the table by which nothing costs anything.
pub fn unit_duals(
    alloc: Global,
    book: &Book,
    asked: &[u32],
    brought: &[u32],
) -> Result<Duals, Memory>
    ensures value { IfOk result (λ duals. duals.values ≡ unit_duals asked.now brought.now (activities book.now)) }
    ensures duals { IfOk result (λ duals. AreDuals (costless book.now) book.now duals.values) }
{
    every_book_is_sound(book);
    let n = book.activities.len();
    let mut values = Vec::with_capacity(alloc, n)?;
    for a in 0..n {
        values.push(unit_dual(asked, brought, a as u32))?;
    }
    Ok(Duals { values })
}
