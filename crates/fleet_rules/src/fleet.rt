//! The fleet, record by record.
//!
//! What tables have in common is for `read_table`. Here stands what one record says: its fields from left to right, of
//! which the first bad one decides. Names are in their grammar from here on, and are looked up when all three tables
//! are read.

ghost use Rattle.std.specs.Prelude.{◌≡◌, ◌≤◌, length, IfOk};
ghost use Rattle.tail_book.specs.declared.limits.TheConstants.{TAIL_LIMIT};
ghost use Rattle.tail_text.specs.inside.Reading.{Answers};
ghost use Rattle.table_records.specs.inside.NoRow.{Judges};
ghost use Rattle.fleet_rules.specs.Fleet.{fleet, fleet_of, tail_of};

use crate::RawTail;
use crate::carry_field::carry_in;
use std::alloc::Global;
use table_records::{Fields, NoRow, Row, name_in, names, number_in, read_table, stamp_in};
use tail_book::limits::{FIXED_LIMIT, TAIL_LIMIT};
use tail_text::{Stopped, Table};

/// The records of a fleet in its order, or its first refusal.
pub fn read_fleet(alloc: Global, bytes: &[u8]) -> Result<Vec<RawTail>, Stopped>
    ensures exact { Answers (λ v. v.items) (fleet_of bytes.now) result }
    ensures few { IfOk result (λ v. length v.items ≤ TAIL_LIMIT) }
{
    read_table(alloc, bytes)
}

impl Row for RawTail {
    ghost layout = { fleet };

    fn table() -> Table {
        Table::Fleet
    }

    fn limit() -> usize {
        TAIL_LIMIT
    }

    fn width() -> usize {
        8
    }

    fn is_header(fields: &Fields) -> bool {
        fields.are(&[
            "tail", "type", "at", "ready", "fixed", "tags", "avoid", "carry",
        ])
    }

    fn row_of(alloc: Global, fields: &Fields) -> Result<RawTail, NoRow> {
        tail_of(alloc, fields)
    }
}

fn tail_of(alloc: Global, fields: &Fields) -> Result<RawTail, NoRow>
    ensures { Judges (λ t. t) (tail_of fields.now) result }
{
    let name = name_in(fields.at(0))?;
    let kind = name_in(fields.at(1))?;
    let at = name_in(fields.at(2))?;
    let ready = stamp_in(fields.at(3))?;
    let fixed = number_in(fields.at(4), FIXED_LIMIT)?;
    let tags = names(alloc, fields.at(5))?;
    let avoid = names(alloc, fields.at(6))?;
    let carry = carry_in(alloc, fields.at(7))?;
    Ok(RawTail {
        name,
        kind,
        at,
        ready,
        fixed,
        tags,
        avoid,
        carry,
    })
}
