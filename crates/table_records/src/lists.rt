//! Lists of items in one field, whatever the items are.
//!
//! Items are looked at up to the first bad one, also behind the limit, since a bad one is told rather than the one too
//! many. No more than the limit are kept, so a long field takes no more memory than a list that is good.

ghost use Rattle.std.specs.Prelude.{◌≡◌, ◌≤◌, ℕ, List, Result, length, All, IfOk};
ghost use Rattle.table_records.specs.Lists.{items_of, list_of};
ghost use Rattle.table_records.specs.inside.NoRow.{Judges};
ghost use Rattle.tail_book.specs.declared.limits.TheConstants.{ITEM_LIMIT};
ghost use Rattle.tail_text.specs.Parts.{parts_of, space};

use crate::NoRow;
use std::alloc::Global;
use tail_book::limits::ITEM_LIMIT;
use tail_text::{Parts, codes};

/// The items of one kind of list.
pub trait Item: Drop {
    ghost item_of: { List ℕ → Result Self ℕ };

    // what holds of each item
    ghost holds: { Self → Type 0 };

    /// The item that a text between spaces writes, or the code of its fault.
    fn item_of(text: &[u8]) -> Result<Self, u8>
        ensures value { result ≡ item_of text.now }
        ensures sound { IfOk result holds };
}

/// The items that a field lists, each two with one space between them. The code of the first bad one, and `TOO_MANY` where
/// all are good and more than one field may list.
pub fn list_of<T: Item>(alloc: Global, field: &[u8]) -> Result<Vec<T>, NoRow>
    ensures value { Judges (λ list. list.items) (list_of T.item_of field.now) result }
    ensures each { IfOk result (λ list. All T.holds list.items) }
    ensures few { IfOk result (λ list. length list.items ≤ ITEM_LIMIT) }
{
    if field.is_empty() {
        return Ok(Vec::new(alloc));
    }
    items_of(alloc, field)
}

// The parts of a field as items. An item too many is kept back, since a bad one may follow it.
fn items_of<T: Item>(alloc: Global, field: &[u8]) -> Result<Vec<T>, NoRow>
    ensures value { Judges (λ list. list.items) (items_of T.item_of (parts_of space field.now)) result }
    ensures each { IfOk result (λ list. All T.holds list.items) }
    ensures few { IfOk result (λ list. length list.items ≤ ITEM_LIMIT) }
{
    let mut parts = Parts::new(field, b' ');
    let mut list = Vec::new(alloc);
    let mut too_many = false;
    while let Some(part) = parts.take() {
        let item = match T::item_of(part) {
            Ok(item) => item,
            Err(code) => return Err(NoRow::Code(code)),
        };
        if list.len() >= ITEM_LIMIT {
            too_many = true;
        } else if list.push(item).is_err() {
            return Err(NoRow::Memory);
        }
    }
    if too_many {
        return Err(NoRow::Code(codes::TOO_MANY));
    }
    Ok(list)
}
