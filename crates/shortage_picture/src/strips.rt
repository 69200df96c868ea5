//! A strip for each day on which a shortage lies, one below the other.

ghost use Rattle.std.specs.Prelude.{◌≡◌, ◌<◌, ◌++◌, OnOk};
ghost use Rattle.shortage_picture.specs.Strips.{day_strip, day_strips, strip_lines};

use plan_picture::pieces::{DAY_WIDTH, LEFT, fixed_line, part, whole_close};
use std::alloc::Global;
use tail_book::Memory;
use tail_text::Line;

// Adds the strip of number `i`, which shows day `d`.
fn add_day_strip(
    alloc: Global,
    height: u64,
    i: u64,
    d: u64,
    lines: &mut Vec<Line>,
) -> Result<(), Memory>
    requires height { height < 10_000_000 }
    requires few { i < 100_000 }
    requires day { d < 2_000_000 }
    ensures { OnOk result (lines.new.items ≡ lines.old.items ++ day_strip height i d) }
{
    lines.push(part(alloc, height, i, 0, 0, LEFT)?)?;
    lines.push(part(alloc, height, i, LEFT + d * DAY_WIDTH, LEFT, DAY_WIDTH)?)?;
    Ok(())
}

// Adds the strips of so many days from a day on.
fn add_day_strips(
    alloc: Global,
    height: u64,
    from: u64,
    days: u64,
    lines: &mut Vec<Line>,
) -> Result<(), Memory>
    requires height { height < 10_000_000 }
    requires few { days < 100_000 }
    requires from { from < 1_000_000 }
    ensures { OnOk result (lines.new.items ≡ lines.old.items ++ day_strips height from days) }
{
    for i in 0..days {
        add_day_strip(alloc, height, i, from + i, lines)?;
    }
    Ok(())
}

/// Adds the end of what the strips show parts of, and the strips.
pub fn add_strip_lines(
    alloc: Global,
    height: u64,
    from: u64,
    days: u64,
    lines: &mut Vec<Line>,
) -> Result<(), Memory>
    requires height { height < 10_000_000 }
    requires few { days < 100_000 }
    requires from { from < 1_000_000 }
    ensures { OnOk result (lines.new.items ≡ lines.old.items ++ strip_lines height from days) }
{
    lines.push(fixed_line(alloc, whole_close())?)?;
    add_day_strips(alloc, height, from, days, lines)
}
