//! The rows of a side's activities: each has a row of its own, which names the airport. Where there are more than forty, they are
//! dealt out to forty rows in turn, and a row names the airport of its first one.

ghost use Rattle.std.specs.Prelude.{◌≡◌, ◌<◌, ◌≤◌, ◌++◌, All, OnOk};
ghost use Rattle.tail_book.specs.Lookup.{activities};
ghost use Rattle.plan_picture.specs.inside.Drawable.{IsNear};
ghost use Rattle.shortage_picture.specs.Lanes.{brought_lines, head_lines, lane_lines, lanes_from, lanes_of};
ghost use Rattle.shortage_picture.specs.declared.sides.Side.TheVariants.{Brought};

use crate::fixed::{brought_close, brought_open};
use crate::sides::{Side, place_of, word_of};
use plan_picture::pieces::{add_bar, fixed_line, head_line, port_name};
use std::alloc::Global;
use tail_book::{Book, Memory};
use tail_text::Line;

/// The most rows of a side.
pub const LANES: u64 = 40;

/// How many rows a side's activities have.
pub fn lanes_of(list: &[u32]) -> u64
    ensures value { result ≡ lanes_of list.now }
    ensures range { result ≤ 40 }
{
    (list.len() as u64).min(LANES)
}

// Adds the head of a row, before its first activity.
fn add_head(
    alloc: Global,
    book: &Book,
    side: Side,
    width: u64,
    row: u64,
    i: u64,
    a: u32,
    lines: &mut Vec<Line>,
) -> Result<(), Memory>
    requires row { row < 1000 }
    requires activity { a < activities book.now }
    ensures { OnOk result (lines.new.items ≡ lines.old.items ++ head_lines book.now side width row i a) }
{
    if i < LANES {
        let place = port_name(book, place_of(book, side, a));
        lines.push(head_line(alloc, row, width, place, word_of(side), b"")?)?;
    }
    Ok(())
}

// Adds activity `a`, which is the one of number `i` of its side, in the row that it is dealt to.
fn add_lane(
    alloc: Global,
    book: &Book,
    side: Side,
    first: i64,
    width: u64,
    row: u64,
    i: u64,
    a: u32,
    lines: &mut Vec<Line>,
) -> Result<(), Memory>
    requires first { IsNear first }
    requires row { row < 900 }
    requires activity { a < activities book.now }
    ensures { OnOk result (lines.new.items ≡ lines.old.items ++ lane_lines book.now side first width row i a) }
{
    let lane = row + i % LANES;
    add_head(alloc, book, side, width, lane, i, a, lines)?;
    add_bar(alloc, book, first, lane, i, a, b"", None, lines)
}

/// Adds the activities of a side, in rows from a row on.
pub fn add_lanes(
    alloc: Global,
    book: &Book,
    side: Side,
    first: i64,
    width: u64,
    row: u64,
    list: &[u32],
    lines: &mut Vec<Line>,
) -> Result<(), Memory>
    requires first { IsNear first }
    requires row { row < 900 }
    requires activities { All (λ a. a < activities book.now) list.now }
    ensures { OnOk result (lines.new.items ≡ lines.old.items ++ lanes_from book.now side first width row 0 list.now) }
{
    for i in 0..list.len() {
        add_lane(
            alloc, book, side, first, width, row, i as u64, list[i], lines,
        )?;
    }
    Ok(())
}

/// Adds the brought activities, in rows from a row on, in their colour.
pub fn add_brought(
    alloc: Global,
    book: &Book,
    first: i64,
    width: u64,
    row: u64,
    list: &[u32],
    lines: &mut Vec<Line>,
) -> Result<(), Memory>
    requires first { IsNear first }
    requires row { row < 900 }
    requires activities { All (λ a. a < activities book.now) list.now }
    ensures { OnOk result (lines.new.items ≡ lines.old.items ++ brought_lines book.now first width row list.now) }
{
    lines.push(fixed_line(alloc, brought_open())?)?;
    add_lanes(alloc, book, Side::Brought, first, width, row, list, lines)?;
    lines.push(fixed_line(alloc, brought_close())?)?;
    Ok(())
}
