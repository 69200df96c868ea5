//! A table in a layout of one's own, read as the tables of the programs are: a timetable of flights alone.
//!
//! Only the header and the meaning of one record are written here. That the size, the bytes, the header and the number
//! of records are looked at before, and that the first refusal is told with its place, comes from `read_table`.

ghost use Rattle.std.specs.Prelude.{◌≡◌, ◌≤◌, length, IfOk};
ghost use Rattle.tail_text.specs.inside.Reading.{Answers};
ghost use Rattle.table_records.specs.Table.{table_of};
ghost use Rattle.table_records.specs.inside.NoRow.{Judges};
ghost use Rattle.sample_calls.specs.Flights.{flight_of, flights};
ghost use Rattle.sample_calls.specs.declared.flights_table.TheConstants.{FLIGHT_LIMIT};

use std::alloc::Global;
use table_records::{Fields, NoRow, Row, name_in, read_table, stamp_in};
use tail_book::Name;
use tail_text::{Stopped, Table};

/// The most records under the header.
pub const FLIGHT_LIMIT: usize = 4000;

/// A flight as its record says it, with the names of its airports. Times are in minutes since 1970-01-01T00:00 UTC.
#[derive(Clone, Copy, Debug)]
pub struct Flight {
    pub id: Name,
    pub from: Name,
    pub to: Name,
    pub start: i64,
    pub end: i64,
}

/// The flights of a table `id,from,to,start,end` in its order, or its first refusal: code 7 is for a flight that does
/// not end after its start, and the other codes are those of every table.
pub fn read_flights(alloc: Global, bytes: &[u8]) -> Result<Vec<Flight>, Stopped>
    ensures exact { Answers (λ v. v.items) (table_of flights bytes.now) result }
    ensures few { IfOk result (λ v. length v.items ≤ FLIGHT_LIMIT) }
{
    read_table(alloc, bytes)
}

impl Row for Flight {
    ghost layout = { flights };

    fn table() -> Table {
        Table::Timetable
    }

    fn limit() -> usize {
        FLIGHT_LIMIT
    }

    fn width() -> usize {
        5
    }

    fn is_header(fields: &Fields) -> bool {
        fields.are(&["id", "from", "to", "start", "end"])
    }

    fn row_of(_alloc: Global, fields: &Fields) -> Result<Flight, NoRow> {
        flight_of(fields)
    }
}

fn flight_of(fields: &Fields) -> Result<Flight, NoRow>
    ensures { Judges (λ f. f) (flight_of fields.now) result }
{
    let id = name_in(fields.at(0))?;
    let from = name_in(fields.at(1))?;
    let to = name_in(fields.at(2))?;
    let start = stamp_in(fields.at(3))?;
    let end = stamp_in(fields.at(4))?;
    if end <= start {
        return Err(NoRow::Code(7));
    }
    Ok(Flight {
        id,
        from,
        to,
        start,
        end,
    })
}
