//! The line of a refusal: its code, the name of its table, and its place.

ghost use Rattle.std.specs.Prelude.{◌≡◌, IfOk};
ghost use Rattle.plan_report.specs.Refused.{refusal_line, table_name};

use std::alloc::Global;
use tail_book::Memory;
use tail_text::{Line, Refusal, Table};

/// The line that is printed for a refusal: its code, its table and its place.
pub fn refusal_line(alloc: Global, refusal: Refusal) -> Result<Line, Memory>
    ensures { IfOk result (λ line. line ≡ refusal_line refusal) }
{
    let mut line = Line::new(alloc)?;
    line.text(b"refused ")?;
    line.unsigned(refusal.code as u64)?;
    line.text(b" ")?;
    line.text(table_name(refusal.table))?;
    line.text(b" ")?;
    line.unsigned(refusal.place)?;
    line.text(b"\n")?;
    Ok(line)
}

fn table_name(table: Table) -> &'static [u8]
    ensures { result.now ≡ table_name table }
{
    match table {
        Table::Timetable => b"timetable",
        Table::Fleet => b"fleet",
        Table::Rules => b"rules",
        Table::Plan => b"plan",
    }
}
