//! Whole tables, up to their first refusal.
//!
//! A table is read in one pass with one buffer for the fields of its records, and nothing behind its first refusal
//! is looked at. What is common to the tables stands here; what a record means is for the type of its rows to say.

ghost use Rattle.std.specs.Str.{is_utf8};
ghost use Rattle.std.specs.Prelude.{◌≡◌, ◌-◌, ◌≤◌, length, true, IfOk};
ghost use Rattle.tail_text.specs.inside.Reading.{Answers};
ghost use Rattle.tail_text.specs.Reading.{refusal_at};
ghost use Rattle.tail_text.specs.declared.refusal.Stopped.TheVariants.{Refused};
ghost use Rattle.table_records.specs.Fields.{are_same};
ghost use Rattle.table_records.specs.Table.{Layout, is_headed, record_of, rows_from, rows_of, table_of, under};
ghost use Rattle.table_records.specs.inside.NoRow.{Judges};

use crate::{Fields, Records};
use std::alloc::Global;
use tail_book::Memory;
use tail_text::{Refusal, SIZE_LIMIT, Stopped, Table, codes};

/// Why a record gives no row.
#[derive(Clone, Copy, PartialEq, Eq, Debug)]
pub enum NoRow {
    /// The record is refused with this code.
    Code(u8),
    /// There was no memory for it.
    Memory,
}

impl From<u8> for NoRow {
    ghost use Rattle.std.specs.Prelude.{◌≡◌};
    ghost use Rattle.table_records.specs.declared.table.NoRow.TheVariants.{Code};

    ghost from_gives = { λ code why. why ≡ Code code };

    fn from(code: u8) -> NoRow {
        NoRow::Code(code)
    }
}

/// The rows of one kind of table.
pub trait Row: Drop {
    ghost layout: { Layout Self };

    /// The table's name in refusals.
    fn table() -> Table
        ensures { result ≡ layout.table };

    /// The most records under the header.
    fn limit() -> usize
        ensures { result ≡ layout.limit };

    /// How many fields the header has.
    fn width() -> usize
        ensures { result ≡ length layout.header };

    /// Whether these are the header's fields.
    fn is_header(fields: &Fields) -> bool
        ensures { result ≡ are_same fields.now layout.header };

    /// What a record of as many fields as the header gives.
    fn row_of(alloc: Global, fields: &Fields) -> Result<Self, NoRow>
        ensures { Judges (λ row. row) (layout.row_of fields.now) result };
}

/// The rows of a table, or its first refusal.
pub fn read_table<R: Row>(alloc: Global, bytes: &[u8]) -> Result<Vec<R>, Stopped>
    ensures exact { Answers (λ rows. rows.items) (table_of R.layout bytes.now) result }
    ensures few { IfOk result (λ rows. length rows.items ≤ R.layout.limit) }
{
    if bytes.len() > SIZE_LIMIT {
        return Err(refused::<R>(codes::TOO_BIG, 0));
    }
    if !is_utf8(bytes) {
        return Err(refused::<R>(codes::NOT_UTF8, 0));
    }
    let mut records = Records::new(alloc, bytes);
    rows_of(alloc, &mut records)
}

fn refused<R: Row>(code: u8, place: u64) -> Stopped
    ensures { result ≡ Refused (refusal_at code R.layout.table place) }
{
    Stopped::Refused(Refusal {
        code,
        table: R::table(),
        place,
    })
}

fn is_utf8(bytes: &[u8]) -> bool
    ensures { result ≡ is_utf8 bytes.now }
{
    str::from_utf8(bytes).is_ok()
}

fn rows_of<R: Row>(alloc: Global, records: &mut Records<'_>) -> Result<Vec<R>, Stopped>
    ensures exact { Answers (λ rows. rows.items) (rows_of R.layout records.old) result }
    ensures few { IfOk result (λ rows. length rows.items ≤ R.layout.limit) }
{
    let mut fields = Fields::new(alloc);
    let headed = takes_header::<R>(records, &mut fields)?;
    if !headed {
        return Err(refused::<R>(codes::HEADER, 1));
    }
    rows_from(alloc, records, &mut fields)
}

// Takes the first record, and says whether it is the header.
fn takes_header<R: Row>(records: &mut Records<'_>, fields: &mut Fields) -> Result<bool, Memory>
    ensures headed { IfOk result (λ headed. headed ≡ is_headed R.layout.header records.old) }
    ensures left { IfOk result (λ headed. headed ≡ true → records.new ≡ under records.old) }
{
    let found = records.take(fields)?;
    Ok(found && R::is_header(fields))
}

fn rows_from<R: Row>(
    alloc: Global,
    records: &mut Records<'_>,
    fields: &mut Fields,
) -> Result<Vec<R>, Stopped>
    ensures exact { Answers (λ rows. rows.items) (rows_from R.layout 2 R.layout.limit records.old) result }
    ensures few { IfOk result (λ rows. length rows.items ≤ R.layout.limit) }
{
    let limit = R::limit();
    let mut rows = Vec::new(alloc);
    while records.take(fields)? {
        match record_of(alloc, limit - rows.len(), fields) {
            Ok(row) => {
                if rows.push(row).is_err() {
                    return Err(Stopped::Memory);
                }
            }
            Err(NoRow::Code(code)) => return Err(refused::<R>(code, rows.len() as u64 + 2)),
            Err(NoRow::Memory) => return Err(Stopped::Memory),
        }
    }
    Ok(rows)
}

// What a record gives where so many may still come.
fn record_of<R: Row>(alloc: Global, room: usize, fields: &Fields) -> Result<R, NoRow>
    ensures { Judges (λ row. row) (record_of R.layout room fields.now) result }
{
    if fields.len() != R::width() {
        return Err(NoRow::Code(codes::SHAPE));
    }
    if room == 0 {
        return Err(NoRow::Code(codes::TOO_MANY));
    }
    R::row_of(alloc, fields)
}
