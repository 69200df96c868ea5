//! The numbers that names get.
//!
//! A set that keeps the order of insertion finds a name at once, so each list of names is passed over once.

ghost use Rattle.std.specs.Prelude.{◌≡◌, ◌<◌, ◌≤◌, ◌^◌, length, map, IfOk};
ghost use Rattle.table_records.specs.inside.NoRow.{Judges};
ghost use Rattle.book_maker.specs.NameNumbers.{distinct_names, number_in, numbers_in, optional_number_in, place_in};

use indexmap::IndexSet;
use std::alloc::Global;
use table_records::NoRow;
use tail_book::{Memory, Name};
use tail_text::codes;

/// The distinct names, in order of first appearance.
pub fn distinct_names(alloc: Global, names: &[Name]) -> Result<IndexSet<Name>, Memory>
    ensures distinct { IfOk result (λ set. set.keys ≡ distinct_names names.now) }
    ensures few { IfOk result (λ set. length set.keys ≤ length names.now) }
{
    let mut set = IndexSet::new(alloc);
    for name in names {
        set.insert_full(*name)?;
    }
    Ok(set)
}

/// The number of a name among those that are known, or code `UNKNOWN`.
pub fn number_in(names: &IndexSet<Name>, name: Name) -> Result<u32, u8>
    requires few { length names.now.keys < 2 ^ 32 }
    ensures { result ≡ number_in names.now.keys name }
{
    match names.get_index_of(&name) {
        Some(number) => Ok(number as u32),
        None => Err(codes::UNKNOWN),
    }
}

/// The number of a name, if there is one to look up, or code `UNKNOWN`.
pub fn optional_number_in(names: &IndexSet<Name>, name: Option<Name>) -> Result<Option<u32>, u8>
    requires few { length names.now.keys < 2 ^ 32 }
    ensures { result ≡ optional_number_in names.now.keys name }
{
    match name {
        Some(name) => Ok(Some(number_in(names, name)?)),
        None => Ok(None),
    }
}

/// The numbers of several names, or code `UNKNOWN`.
pub fn numbers_in(alloc: Global, names: &IndexSet<Name>, list: &[Name]) -> Result<Vec<u32>, NoRow>
    requires few { length names.now.keys < 2 ^ 32 }
    ensures { Judges (λ v. v.items) (numbers_in names.now.keys list.now) result }
{
    let mut numbers = Vec::new(alloc);
    for i in 0..list.len() {
        let number = match number_in(names, list[i]) {
            Ok(number) => number,
            Err(code) => return Err(NoRow::Code(code)),
        };
        if numbers.push(number).is_err() {
            return Err(NoRow::Memory);
        }
    }
    Ok(numbers)
}

/// The numbers of names that are not declared.
pub fn places_in(alloc: Global, names: &IndexSet<Name>, list: &[Name]) -> Result<Vec<u32>, Memory>
    requires few { length names.now.keys < 2 ^ 32 }
    ensures { IfOk result (λ v. v.items ≡ map (place_in names.now.keys) list.now) }
{
    let mut places = Vec::new(alloc);
    for name in list {
        places.push(place_in(names, *name))?;
    }
    Ok(places)
}

fn place_in(names: &IndexSet<Name>, name: Name) -> u32
    requires few { length names.now.keys < 2 ^ 32 }
    ensures { result ≡ place_in names.now.keys name }
{
    match names.get_index_of(&name) {
        Some(place) => place as u32,
        None => 0,
    }
}
