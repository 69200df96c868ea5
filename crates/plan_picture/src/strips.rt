//! A strip for each day, one below the other, so that many days can be read on a page.
//!
//! What all strips show parts of stands once in the text, and each strip draws it twice by reference: cut to the names,
//! and cut to its day. So a picture has as many lines of bars as one strip of all days.

ghost use Rattle.std.specs.Prelude.{◌≡◌, ◌<◌, ◌≤◌, ◌++◌, IfOk, OnOk};
ghost use Rattle.plan_picture.specs.Strips.{part, strip, strip_height, strip_lines, strip_top, strips};

use crate::fixed::{fixed_line, whole_close};
use crate::layout::{DAY_WIDTH, LEFT};
use std::alloc::Global;
use tail_book::Memory;
use tail_text::Line;

/// The units above the dates, for the title: no strip shows them.
pub const ABOVE: u64 = 50;

fn strip_height(height: u64) -> u64
    ensures value { result ≡ strip_height height }
    ensures range { result ≤ height }
{
    height.saturating_sub(ABOVE)
}

/// Where the strip of a day begins, in units from the top, and behind the last day the height of all strips.
pub fn strip_top(height: u64, d: u64) -> u64
    requires height { height < 10_000_000 }
    requires few { d < 100_000 }
    ensures value { result ≡ strip_top height d }
    ensures range { result < 10_000_000_000_000 }
{
    ABOVE + d * strip_height(height)
}

/// A part of what all strips show, so wide from one place on, in the strip of a day from another place on.
pub fn part(
    alloc: Global,
    height: u64,
    d: u64,
    from: u64,
    to: u64,
    width: u64,
) -> Result<Line, Memory>
    requires height { height < 10_000_000 }
    requires few { d < 100_000 }
    ensures { IfOk result (λ line. line ≡ part height d from to width) }
{
    let mut line = Line::new(alloc)?;
    line.text(b"<svg x='")?;
    line.unsigned(to)?;
    line.text(b"' y='")?;
    line.unsigned(strip_top(height, d))?;
    line.text(b"' width='")?;
    line.unsigned(width)?;
    line.text(b"' height='")?;
    line.unsigned(strip_height(height))?;
    line.text(b"' viewBox='")?;
    line.unsigned(from)?;
    line.text(b" ")?;
    line.unsigned(ABOVE)?;
    line.text(b" ")?;
    line.unsigned(width)?;
    line.text(b" ")?;
    line.unsigned(strip_height(height))?;
    line.text(b"'><use href='#all'/></svg>\n")?;
    Ok(line)
}

fn add_strip(alloc: Global, height: u64, d: u64, lines: &mut Vec<Line>) -> Result<(), Memory>
    requires height { height < 10_000_000 }
    requires few { d < 100_000 }
    ensures { OnOk result (lines.new.items ≡ lines.old.items ++ strip height d) }
{
    lines.push(part(alloc, height, d, 0, 0, LEFT)?)?;
    lines.push(part(alloc, height, d, LEFT + d * DAY_WIDTH, LEFT, DAY_WIDTH)?)?;
    Ok(())
}

fn add_strips(alloc: Global, height: u64, days: u64, lines: &mut Vec<Line>) -> Result<(), Memory>
    requires height { height < 10_000_000 }
    requires few { days < 100_000 }
    ensures { OnOk result (lines.new.items ≡ lines.old.items ++ strips height days) }
{
    for d in 0..days {
        add_strip(alloc, height, d, lines)?;
    }
    Ok(())
}

/// Adds the end of what the strips show parts of, and the strips.
pub fn add_strip_lines(
    alloc: Global,
    height: u64,
    days: u64,
    lines: &mut Vec<Line>,
) -> Result<(), Memory>
    requires height { height < 10_000_000 }
    requires few { days < 100_000 }
    ensures { OnOk result (lines.new.items ≡ lines.old.items ++ strip_lines height days) }
{
    lines.push(fixed_line(alloc, whole_close())?)?;
    add_strips(alloc, height, days, lines)
}
