//! One step of a row over a link: what the link adds to the weight, and the counters behind it.
//!
//! What a link adds is the same for all rows that take it, so it is asked for apart and handed to each step. A step
//! writes over the row and allocates nothing. All weights are in thousandths of a cost unit, and no sum of them leaves
//! 64 bits.

ghost use Rattle.std.specs.Prelude.{◌≡◌, ◌<◌, ◌+◌, ◌↔◌, length, IsTrue};
ghost use Rattle.tail_book.specs.Lookup.{activities, aircraft};
ghost use Rattle.tail_book.specs.Counters.{step, WithinLimits};
ghost use Rattle.tail_book.specs.Link.{IsLink};
ghost use Rattle.tail_book.specs.Place.{IsPlaceOf};
ghost use Rattle.turn_rules.specs.inside.FreeBefore.{IsFreeBefore};
ghost use Rattle.maint_counters.specs.inside.Counts.{AreCounts};
ghost use Rattle.maint_counters.specs.inside.StepTable.{IsStepTableOf};
ghost use Rattle.pricing.specs.Rows.{weight_of, counters_of};
ghost use Rattle.pricing.specs.inside.WeightRange.{IsBroad, IsSmall};
ghost use Rattle.pricing.specs.inside.Truth.{row_after};
ghost use Rattle.pricing.specs.inside.Asked.{IsAsked};
ghost use Rattle.pricing.specs.inside.ForAsked.{arc_weight_for};

use crate::asked::Asked;
use maint_counters::{StepTable, step_by};
use tail_book::laws::{costs_are_small, every_book_is_sound};
use tail_book::{Book, COST_UNIT, Place};
use turn_rules::arc_cost;
use turn_rules::laws::links_leave_time;

/// A link leaves an aircraft free before the activity starts: the law for one link.
pub fn links_leave_free(asked: &Asked, from: Place, b: u32)
    requires link { IsLink asked.now.book.now asked.now.k from b }
    ensures { IsFreeBefore asked.now.book.now asked.now.k from b }
{
    every_book_is_sound(asked.book);
    links_leave_time();
}

/// What an activity after a place adds to a weight, in thousandths of a cost unit.
pub fn arc_weight(asked: &Asked, from: Place, b: u32) -> i64
    requires asked { IsAsked asked.now }
    requires place { IsPlaceOf asked.now.book.now from }
    requires activity { b < activities asked.now.book.now }
    ensures value { result ≡ arc_weight_for asked.now from b }
    ensures range { IsBroad result }
{
    costs_are_small(asked.table);
    let duals = asked.duals;
    (COST_UNIT * arc_cost(asked.book, asked.table, asked.k, from, b)) as i64
        - duals.values[b as usize]
}

/// Writes the row after an activity that adds so much, and answers whether its counters are within their limits.
pub fn stepped(
    book: &Book,
    steps: &StepTable,
    k: u32,
    arc: i64,
    from: Place,
    b: u32,
    row: &mut [i64],
) -> bool
    requires steps { IsStepTableOf book.now steps.now }
    requires aircraft { k < aircraft book.now }
    requires place { IsPlaceOf book.now from }
    requires activity { b < activities book.now }
    requires width { length row.old ≡ 1 + length book.now.rules.counters }
    requires counts { AreCounts (counters_of row.old) }
    requires light { IsSmall (weight_of row.old) }
    requires arc { IsBroad arc }
    requires free { IsFreeBefore book.now k from b }
    ensures limits { IsTrue result ↔ WithinLimits book.now.rules.counters (step book.now k from b (counters_of row.old)) }
    ensures row { row.new ≡ row_after book.now k arc from b row.old }
    ensures counts { IsTrue result → AreCounts (step book.now k from b (counters_of row.old)) }
    ensures length { length row.new ≡ length row.old }
{
    row[0] += arc;
    step_by(book, steps, k, from, b, &mut row[1..])
}
