//! The carry values of an aircraft, one for each counter.
//!
//! A counter that no item names begins at 0. Each item is compared with all before it: at most 190 comparisons, since a
//! field has at most 20 items, so no set is made.

ghost use Rattle.std.specs.Prelude.{◌≡◌, ◌<◌, ◌^◌, length, slice_set};
ghost use Rattle.table_records.specs.inside.NoRow.{Judges};
ghost use Rattle.book_maker.specs.CarryFound.{carry_in, is_named};

use crate::name_numbers::number_in;
use fleet_rules::RawCarry;
use indexmap::IndexSet;
use std::alloc::Global;
use table_records::NoRow;
use tail_book::Name;
use tail_text::codes;

/// The value of each counter: that of the item that names it, and 0 where none does. Code `UNKNOWN` for an unknown counter,
/// and `TWICE` for one that an earlier item names.
pub fn carry_in(
    alloc: Global,
    counters: &IndexSet<Name>,
    items: &[RawCarry],
) -> Result<Vec<i64>, NoRow>
    requires { length counters.now.keys < 2 ^ 32 }
    ensures { Judges (λ v. v.items) (carry_in counters.now.keys items.now) result }
{
    let Ok(mut values) = vec![in alloc; 0i64; counters.len()] else {
        return Err(NoRow::Memory);
    };
    for i in 0..items.len() {
        let item = items[i];
        let counter = match number_in(counters, item.counter) {
            Ok(counter) => counter,
            Err(code) => return Err(NoRow::Code(code)),
        };
        if is_named(&items[..i], item.counter) {
            return Err(NoRow::Code(codes::TWICE));
        }
        set(&mut values, counter as usize, item);
    }
    Ok(values)
}

fn is_named(items: &[RawCarry], counter: Name) -> bool
    ensures { result ≡ is_named items.now counter }
{
    items.iter().any(|item| counter == item.counter)
}

fn set(values: &mut Vec<i64>, at: usize, item: RawCarry)
    requires { at < length values.old.items }
    ensures { values.new.items ≡ slice_set values.old.items at item.value }
{
    values[at] = item.value;
}
