//! The table of quotas, up to its first refusal.
//!
//! It is read in one pass, as the other tables are. Its airports are looked up as they come, since the book is there, so a
//! record is judged whole before the next. Nothing behind the first refusal is looked at.

ghost use Rattle.std.specs.Prelude.{◌≡◌, ◌-◌, ◌≤◌, ◌<◌, ◌++◌, codes, length, pos, true, All, IfOk, IfSome};
ghost use Rattle.std.specs.Str.{bytes_eq, is_utf8};
ghost use Rattle.tail_book.specs.Ranges.{IsWithin};
ghost use Rattle.tail_book.specs.declared.limits.TheConstants.{LAST_MOMENT, VALUE_LIMIT};
ghost use Rattle.tail_book.specs.inside.Sound.{IsMoment};
ghost use Rattle.table_records.specs.Fields.{are_same};
ghost use Rattle.table_records.specs.Table.{is_headed, under};
ghost use Rattle.quota_rows.specs.Belongs.{day_of, IsQuotaOf};
ghost use Rattle.quota_rows.specs.QuotaAnswers.{ReadsQuotas};
ghost use Rattle.quota_rows.specs.QuotaTable.{airport_in, airport_named, day_in, header, minutes_in};
ghost use Rattle.quota_rows.specs.QuotaTable.{quota_in, quotas_from, quotas_in, quotas_of, record_in};
ghost use Rattle.quota_rows.specs.declared.quota.TheConstants.{QUOTA_LIMIT};
ghost use Rattle.quota_rows.specs.declared.quota_table.QuotaStop.TheVariants.{Refused};

use crate::Quota;
use crate::quota::QUOTA_LIMIT;
use std::alloc::Global;
use table_records::{Fields, Records, name_in, number_in, stamp_in};
use tail_book::laws::every_book_is_sound;
use tail_book::limits::{ACTIVITY_LIMIT, DAY, VALUE_LIMIT};
use tail_book::{Airport, Book, Memory, Name};
use tail_text::{SIZE_LIMIT, codes};

/// What keeps a table of quotas from being read.
#[derive(Clone, Copy, PartialEq, Eq, Debug)]
pub enum QuotaStop {
    /// It is refused.
    Refused {
        /// What is wrong: one of `tail_text::codes`.
        code: u8,
        /// The number of its record, where the header is record 1; 0 is the whole table.
        place: u64,
    },
    /// There was no memory for it.
    Memory,
}

impl From<Memory> for QuotaStop {
    ghost use Rattle.quota_rows.specs.declared.quota_table.QuotaStop.TheVariants.{Memory as NoMemory};

    ghost from_gives = { λ _ s. s ≡ NoMemory };

    fn from(_memory: Memory) -> QuotaStop {
        QuotaStop::Memory
    }
}

/// The quotas of a table in its order, or its first refusal. At most 50 records may follow its header, and each names an
/// airport of the book.
pub fn read_quotas(alloc: Global, book: &Book, bytes: &[u8]) -> Result<Vec<Quota>, QuotaStop>
    ensures exact { ReadsQuotas (λ quotas. quotas.items) (quotas_of book.now bytes.now) result }
    ensures few { IfOk result (λ quotas. length quotas.items ≤ QUOTA_LIMIT) }
    ensures each { IfOk result (λ quotas. All (IsQuotaOf book.now) quotas.items) }
{
    if bytes.len() > SIZE_LIMIT {
        return Err(refused(codes::TOO_BIG, 0));
    }
    if !is_utf8(bytes) {
        return Err(refused(codes::NOT_UTF8, 0));
    }
    let mut records = Records::new(alloc, bytes);
    quotas_in(alloc, book, &mut records)
}

fn refused(code: u8, place: u64) -> QuotaStop
    ensures { result ≡ Refused code place }
{
    QuotaStop::Refused { code, place }
}

fn is_utf8(bytes: &[u8]) -> bool
    ensures { result ≡ is_utf8 bytes.now }
{
    str::from_utf8(bytes).is_ok()
}

fn quotas_in(alloc: Global, book: &Book, records: &mut Records<'_>) -> Result<Vec<Quota>, QuotaStop>
    ensures exact { ReadsQuotas (λ quotas. quotas.items) (quotas_in book.now records.old) result }
    ensures few { IfOk result (λ quotas. length quotas.items ≤ QUOTA_LIMIT) }
    ensures each { IfOk result (λ quotas. All (IsQuotaOf book.now) quotas.items) }
{
    let mut fields = Fields::new(alloc);
    let headed = takes_header(records, &mut fields)?;
    if !headed {
        return Err(refused(codes::HEADER, 1));
    }
    quotas_from(alloc, book, records, &mut fields)
}

// Takes the first record, and says whether it is the header.
fn takes_header(records: &mut Records<'_>, fields: &mut Fields) -> Result<bool, Memory>
    ensures headed { IfOk result (λ headed. headed ≡ is_headed header records.old) }
    ensures left { IfOk result (λ headed. headed ≡ true → records.new ≡ under records.old) }
{
    let found = records.take(fields)?;
    Ok(found && is_header(fields))
}

fn is_header(fields: &Fields) -> bool
    ensures { result ≡ are_same fields.now header }
{
    fields.are(&["airport", "day", "below", "most"])
}

fn quotas_from(
    alloc: Global,
    book: &Book,
    records: &mut Records<'_>,
    fields: &mut Fields,
) -> Result<Vec<Quota>, QuotaStop>
    ensures exact { ReadsQuotas (λ quotas. quotas.items) (quotas_from book.now 2 QUOTA_LIMIT records.old) result }
    ensures few { IfOk result (λ quotas. length quotas.items ≤ QUOTA_LIMIT) }
    ensures each { IfOk result (λ quotas. All (IsQuotaOf book.now) quotas.items) }
{
    let mut quotas = Vec::new(alloc);
    while records.take(fields)? {
        match record_in(book, QUOTA_LIMIT - quotas.len(), fields) {
            Ok(quota) => {
                if quotas.push(quota).is_err() {
                    return Err(QuotaStop::Memory);
                }
            }
            Err(code) => return Err(refused(code, quotas.len() as u64 + 2)),
        }
    }
    Ok(quotas)
}

// What a record gives where so many may still come.
fn record_in(book: &Book, room: usize, fields: &Fields) -> Result<Quota, u8>
    ensures exact { result ≡ record_in book.now room fields.now }
    ensures sound { IfOk result (IsQuotaOf book.now) }
{
    if fields.len() != 4 {
        return Err(codes::SHAPE);
    }
    if room == 0 {
        return Err(codes::TOO_MANY);
    }
    quota_in(book, fields)
}

fn quota_in(book: &Book, fields: &Fields) -> Result<Quota, u8>
    ensures exact { result ≡ quota_in book.now fields.now }
    ensures sound { IfOk result (IsQuotaOf book.now) }
{
    let airport = airport_in(book, fields.at(0))?;
    let day = day_in(fields.at(1))?;
    let below = minutes_in(fields.at(2))?;
    let most = number_in(fields.at(3), ACTIVITY_LIMIT as u64)?;
    Ok(Quota {
        airport,
        day,
        below,
        most,
    })
}

fn airport_in(book: &Book, field: &[u8]) -> Result<u32, u8>
    ensures exact { result ≡ airport_in book.now field.now }
    ensures range { IfOk result (λ airport. airport < length book.now.rules.airports) }
{
    every_book_is_sound(book);
    let name = name_in(field)?;
    match airport_named(book, &name) {
        Some(airport) => Ok(airport as u32),
        None => Err(codes::UNKNOWN),
    }
}

fn is_named(airport: &Airport, name: &Name) -> bool
    ensures { result ≡ bytes_eq airport.now.name name.now }
{
    airport.name == *name
}

fn airport_named(book: &Book, name: &Name) -> Option<usize>
    ensures place { result ≡ airport_named book.now name.now }
    ensures range { IfSome result (λ airport. airport < length book.now.rules.airports) }
{
    book.rules
        .airports
        .iter()
        .position(|airport| is_named(airport, name))
}

fn day_in(field: &[u8]) -> Result<i64, u8>
    ensures exact { result ≡ day_in field.now }
    ensures range { IfOk result (IsWithin (pos 0) (day_of LAST_MOMENT)) }
{
    if field.len() != 10 {
        return Err(codes::STAMP);
    }
    let midnight = midnight_of(field);
    let moment = stamp_in(&midnight)?;
    Ok(day_of(moment))
}

// The day in which a moment lies.
fn day_of(moment: i64) -> i64
    requires { IsMoment moment }
    ensures value { result ≡ day_of moment }
    ensures range { IsWithin (pos 0) (day_of LAST_MOMENT) result }
{
    moment.div_euclid(DAY)
}

// The first moment of a day, as a moment is written.
fn midnight_of(day: &[u8]) -> [u8; 16]
    requires { length day.now ≡ 10 }
    ensures { result ≡ day.now ++ codes "T00:00" }
{
    let mut text = *b"0000-00-00T00:00";
    text[..10].copy_from_slice(day);
    text
}

fn minutes_in(field: &[u8]) -> Result<i64, u8>
    ensures exact { result ≡ minutes_in 10_000_000 field.now }
    ensures range { IfOk result (IsWithin (pos 1) VALUE_LIMIT) }
{
    let minutes = number_in(field, VALUE_LIMIT as u64)?;
    if minutes == 0 {
        return Err(codes::NUMBER);
    }
    Ok(minutes as i64)
}
