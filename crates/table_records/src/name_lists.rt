//! Lists of names in one field. All but what one name is stands in `lists`: the names keep the order of the field, and
//! one may stand in it twice.

ghost use Rattle.std.specs.Prelude.{◌≡◌, true, IfOk};
ghost use Rattle.tail_book.specs.Name.{is_name};
ghost use Rattle.table_records.specs.inside.NameLists.{AreNames};
ghost use Rattle.table_records.specs.NameLists.{names_of};
ghost use Rattle.table_records.specs.inside.NoRow.{Judges};
ghost use Rattle.table_records.specs.Values as values;
ghost use Rattle.tail_book.specs.declared.limits.TheConstants.{ITEM_LIMIT};

use crate::lists::{Item, list_of};
use crate::{NoRow, name_in};
use std::alloc::Global;
use tail_book::Name;

/// The names that a field lists, each two with one space between them. Code `NAME` where one is bad, and
/// `TOO_MANY` where all are good and more than one field may list.
pub fn names(alloc: Global, field: &[u8]) -> Result<Vec<Name>, NoRow>
    ensures value { Judges (λ names. names.items) (names_of field.now) result }
    ensures grammar { IfOk result (λ names. AreNames ITEM_LIMIT names.items) }
{
    list_of(alloc, field)
}

impl Item for Name {
    ghost item_of = { values.name_in };

    ghost holds = { λ name. is_name name ≡ true };

    fn item_of(text: &[u8]) -> Result<Name, u8> {
        name_in(text)
    }
}
