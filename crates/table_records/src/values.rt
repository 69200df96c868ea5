//! Fields that several tables have: names, moments and numbers, each read exactly or refused with the code of its kind.
//! Nothing is allocated.

ghost use Rattle.std.specs.Prelude.{◌≡◌, ◌≤◌, true, IfOk, IfSome};
ghost use Rattle.tail_book.specs.Name.{is_name};
ghost use Rattle.tail_book.specs.inside.Sound.{IsMoment};
ghost use Rattle.table_records.specs.Values.{name_in, number_in, optional_name_in, stamp_in};

use tail_book::Name;
use tail_text::{codes, name, number, stamp};

/// The name that a field holds, or code `NAME`.
pub fn name_in(field: &[u8]) -> Result<Name, u8>
    ensures value { result ≡ name_in field.now }
    ensures grammar { IfOk result (λ name. is_name name ≡ true) }
{
    match name(field) {
        Ok(name) => Ok(name),
        Err(_) => Err(codes::NAME),
    }
}

/// The name that a field holds, none where it is empty, or code `NAME`.
pub fn optional_name_in(field: &[u8]) -> Result<Option<Name>, u8>
    ensures value { result ≡ optional_name_in field.now }
    ensures grammar { IfOk result (λ found. IfSome found (λ name. is_name name ≡ true)) }
{
    if field.is_empty() {
        return Ok(None);
    }
    match name(field) {
        Ok(name) => Ok(Some(name)),
        Err(_) => Err(codes::NAME),
    }
}

/// The moment that a field holds, in minutes since 1970-01-01T00:00 UTC, or code `STAMP`.
pub fn stamp_in(field: &[u8]) -> Result<i64, u8>
    ensures value { result ≡ stamp_in field.now }
    ensures range { IfOk result IsMoment }
{
    match stamp(field) {
        Ok(moment) => Ok(moment),
        Err(_) => Err(codes::STAMP),
    }
}

/// The number of at most `most` that a field holds, or code `NUMBER`.
pub fn number_in(field: &[u8], most: u64) -> Result<u64, u8>
    ensures value { result ≡ number_in most field.now }
    ensures range { IfOk result (λ n. n ≤ most) }
{
    match number(field, most) {
        Ok(number) => Ok(number),
        Err(_) => Err(codes::NUMBER),
    }
}
