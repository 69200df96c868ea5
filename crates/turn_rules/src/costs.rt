//! What connections cost by bands, the book's own or those of a table, and what an activity and the connection to it cost
//! by a table. The minutes on the ground decide, by the first band that reaches them, so a connection's cost is a walk over
//! the bands.

ghost use Rattle.std.specs.Prelude.{◌≡◌, ◌<◌, ◌≤◌, ◌+◌, ◌*◌, ◌^◌, ℕ, All};
ghost use Rattle.tail_book.specs.Cost.{connection_cost};
ghost use Rattle.tail_book.specs.Lookup.{activities, aircraft};
ghost use Rattle.tail_book.specs.CostTable.{IsTableFor, activity_cost_in, connection_cost_in};
ghost use Rattle.tail_book.specs.Place.{IsPlaceOf};
ghost use Rattle.tail_book.specs.TableSeen.{CostTableSeen};

use crate::connection::gap;
use tail_book::laws::costs_are_small;
use tail_book::{Band, Book, CostTable, Place, band_cost};

/// What a connection costs by these bands, in cost units: what they say of the minutes on the ground, and nothing from
/// the carry-in.
pub fn connection_cost(book: &Book, bands: &[Band], k: u32, from: Place, b: u32) -> u64
    requires aircraft { k < aircraft book.now }
    requires place { IsPlaceOf book.now from }
    requires activity { b < activities book.now }
    ensures own { bands.now ≡ book.now.rules.bands → result ≡ connection_cost book.now k from b }
    ensures in_table { (table : CostTableSeen) → table.bands ≡ bands.now → result ≡ connection_cost_in table book.now k from b }
    ensures most { (most : ℕ) → All (λ band. band.cost ≤ most) bands.now → result ≤ most }
{
    match from {
        Place::Carry => 0,
        Place::After(_) => band_cost(bands, gap(book, k, from, b)),
    }
}

/// What an activity and the connection to it cost by a table, in cost units.
pub fn arc_cost(book: &Book, table: &CostTable, k: u32, from: Place, b: u32) -> u64
    requires table { IsTableFor book.now table.now }
    requires aircraft { k < aircraft book.now }
    requires place { IsPlaceOf book.now from }
    requires activity { b < activities book.now }
    ensures value { result ≡ activity_cost_in table.now k b + connection_cost_in table.now book.now k from b }
    ensures most { 1000 * result ≤ 2 ^ 61 }
{
    costs_are_small(table);
    table.activity_cost(k, b) + connection_cost(book, &table.bands, k, from, b)
}
