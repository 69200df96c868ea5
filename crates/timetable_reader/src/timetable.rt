//! The timetable, record by record.
//!
//! What tables have in common is for `read_table`. Here stands what one record says: its fields from left to right,
//! with the span right behind the end, and then the record as a whole. The first that is bad decides. Names are in
//! their grammar from here on, and are looked up when all three tables are read.

ghost use Rattle.std.specs.Prelude.{◌≡◌, ◌≤◌, length, ◌+ℤ◌, ◌≤ℤ◌, pos, true, Err, IfOk, IfErr, IfSome};
ghost use Rattle.tail_book.specs.Name.{is_name};
ghost use Rattle.tail_book.specs.declared.limits.TheConstants.{ACTIVITY_LIMIT, ITEM_LIMIT, SPAN_LIMIT};
ghost use Rattle.tail_book.specs.inside.Sound.{IsMoment};
ghost use Rattle.tail_text.specs.inside.Reading.{Answers};
ghost use Rattle.table_records.specs.Fields.{field_at};
ghost use Rattle.table_records.specs.inside.NameLists.{AreNames};
ghost use Rattle.table_records.specs.inside.NoRow.{Judges};
ghost use Rattle.timetable_reader.specs.inside.ReadParts.{AreMarksOf, AreResetsOf, AreSoundMarks, HasNames, IsLegOf, IsSoundLeg, ReadsPart};
ghost use Rattle.timetable_reader.specs.Timetable.{activity_of, end_of, is_span, is_whole, flight_in, timetable, timetable_of};

use crate::RawActivity;
use std::alloc::Global;
use table_records::{Fields, NoRow, Row, name_in, names, optional_name_in, read_table, stamp_in};
use tail_book::Name;
use tail_book::limits::{ACTIVITY_LIMIT, SPAN_LIMIT};
use tail_text::{Stopped, Table, codes};

/// The records of a timetable in its order, or its first refusal.
pub fn read_timetable(alloc: Global, bytes: &[u8]) -> Result<Vec<RawActivity>, Stopped>
    ensures exact { Answers (λ v. v.items) (timetable_of bytes.now) result }
    ensures few { IfOk result (λ v. length v.items ≤ ACTIVITY_LIMIT) }
{
    read_table(alloc, bytes)
}

impl Row for RawActivity {
    ghost layout = { timetable };

    fn table() -> Table {
        Table::Timetable
    }

    fn limit() -> usize {
        ACTIVITY_LIMIT
    }

    fn width() -> usize {
        10
    }

    fn is_header(fields: &Fields) -> bool {
        fields.are(&[
            "id", "kind", "from", "to", "start", "end", "types", "tags", "tail", "resets",
        ])
    }

    fn row_of(alloc: Global, fields: &Fields) -> Result<RawActivity, NoRow> {
        activity_of(alloc, fields)
    }
}

// The fields up to the end, which list nothing.
#[derive(Clone, Copy)]
struct Leg {
    id: Name,
    flight: bool,
    from: Name,
    to: Name,
    start: i64,
    end: i64,
}

// The fields behind the types.
#[derive(Drop)]
struct Marks {
    tags: Vec<Name>,
    tail: Option<Name>,
    resets: Vec<Name>,
}

// The fields are read from left to right by functions of which each owns one list at most.
fn activity_of(alloc: Global, fields: &Fields) -> Result<RawActivity, NoRow>
    ensures { Judges (λ a. a) (activity_of fields.now) result }
{
    let leg = leg_in(fields)?;
    let types = names(alloc, fields.at(6))?;
    match marks_in(alloc, fields, &leg) {
        Ok(marks) => Ok(RawActivity {
            id: leg.id,
            flight: leg.flight,
            from: leg.from,
            to: leg.to,
            start: leg.start,
            end: leg.end,
            types,
            tags: marks.tags,
            tail: marks.tail,
            resets: marks.resets,
        }),
        Err(why) => Err(why),
    }
}

fn leg_in(fields: &Fields) -> Result<Leg, u8>
    ensures read { IfOk result (IsLegOf fields.now) }
    ensures sound { IfOk result IsSoundLeg }
    ensures refused { IfErr result (λ code. activity_of fields.now ≡ Err code) }
{
    let id = name_in(fields.at(0))?;
    let flight = flight_in(fields.at(1))?;
    let from = name_in(fields.at(2))?;
    let to = name_in(fields.at(3))?;
    let start = stamp_in(fields.at(4))?;
    let end = end_of(start, fields.at(5))?;
    Ok(Leg {
        id,
        flight,
        from,
        to,
        start,
        end,
    })
}

// What stands behind the types, where these are good and the leg before them is.
fn marks_in(alloc: Global, fields: &Fields, leg: &Leg) -> Result<Marks, NoRow>
    requires leg { IsLegOf fields.now leg.now }
    requires types { HasNames (field_at fields.now 6) }
    ensures read { ReadsPart (AreMarksOf fields.now leg.now) (activity_of fields.now) result }
    ensures sound { IfOk result AreSoundMarks }
{
    let tags = names(alloc, fields.at(7))?;
    match resets_in(alloc, fields, leg) {
        Ok((tail, resets)) => Ok(Marks { tags, tail, resets }),
        Err(why) => Err(why),
    }
}

// The aircraft and the resets, where all that stands before them is good.
fn resets_in(alloc: Global, fields: &Fields, leg: &Leg) -> Result<(Option<Name>, Vec<Name>), NoRow>
    requires leg { IsLegOf fields.now leg.now }
    requires types { HasNames (field_at fields.now 6) }
    requires tags { HasNames (field_at fields.now 7) }
    ensures read { ReadsPart (λ part. AreResetsOf fields.now leg.now part.0 part.1.items) (activity_of fields.now) result }
    ensures tail { IfOk result (λ part. IfSome part.0 (λ name. is_name name ≡ true)) }
    ensures resets { IfOk result (λ part. AreNames ITEM_LIMIT part.1.items) }
{
    let tail = optional_name_in(fields.at(8))?;
    let resets = names(alloc, fields.at(9))?;
    if !is_whole(leg.flight, &leg.from, &leg.to, resets.as_slice()) {
        return Err(NoRow::Code(codes::GROUND));
    }
    Ok((tail, resets))
}

fn flight_in(field: &[u8]) -> Result<bool, u8>
    ensures { result ≡ flight_in field.now }
{
    if field == b"flight".as_slice() {
        return Ok(true);
    }
    if field == b"ground".as_slice() {
        return Ok(false);
    }
    Err(codes::KIND)
}

fn end_of(start: i64, field: &[u8]) -> Result<i64, u8>
    requires { IsMoment start }
    ensures value { result ≡ end_of start field.now }
    ensures range { IfOk result IsMoment }
    ensures least { IfOk result (λ end. (start +ℤ pos 1) ≤ℤ end) }
    ensures most { IfOk result (λ end. end ≤ℤ (start +ℤ SPAN_LIMIT)) }
{
    let end = stamp_in(field)?;
    if !is_span(start, end) {
        return Err(codes::SPAN);
    }
    Ok(end)
}

fn is_span(start: i64, end: i64) -> bool
    requires start { IsMoment start }
    requires end { IsMoment end }
    ensures { result ≡ is_span start end }
{
    let span = end - start;
    span >= 1 && span <= SPAN_LIMIT
}

fn is_whole(flight: bool, from: &Name, to: &Name, resets: &[Name]) -> bool
    ensures { result ≡ is_whole flight from.now to.now resets.now }
{
    if flight {
        resets.is_empty()
    } else {
        from == to
    }
}
